//! What is kept of items is what the definitions speak of: each law is the contract of a function that does nothing.

ghost use Rattle.std.specs.Prelude.{◌≡◌, [], List, map};
ghost use Rattle.cl_tree.specs.Words.{Word};
ghost use Rattle.cl_tree.specs.declared.tree.Program.{Program as ProgramValue};
ghost use Rattle.cl_mean.specs.declared.checked.FnFact.{FnFact as FnFactValue};
ghost use Rattle.cl_labelling.specs.Items as items;
ghost use Rattle.cl_labelling.specs.Names.{labels_of};
ghost use Rattle.cl_labelling.specs.Regions.{Marked, marked_of};
ghost use Rattle.cl_regions.specs.Marks.{all_kept};
ghost use Rattle.cle_share.specs.Bearings.{bearings_of};
ghost use Rattle.cle_items.specs.Numbered.{bearers, function_label, number_kept, numbered_by, numbers_of, object_labels, wrong_kinds};

/// Where no item has two labels, what is kept of items gives the numbers of their labels.
pub fn numbers_of_items()
    ensures { (names : List Word) (all : List Marked) → items.two_labels [] all ≡ [] → map (number_kept names) (all_kept all) ≡ map (numbered_by names) all }
{}

/// The rule of kinds, the labels of objects and functions, and the functions that have a label, by the numbers of a program's items.
pub fn by_numbers()
    ensures kinds { (program : ProgramValue) → items.wrong_kind program ≡ wrong_kinds (labels_of program) (numbers_of program) }
    ensures objects { (program : ProgramValue) → items.on_objects program ≡ object_labels (numbers_of program) }
    ensures functions { (program : ProgramValue) (facts : List FnFactValue) → items.on_functions program facts ≡ map (λ f. function_label (numbers_of program) f.name) facts }
    ensures bearers { (program : ProgramValue) → bearings_of program ≡ bearers (numbers_of program) }
{}
