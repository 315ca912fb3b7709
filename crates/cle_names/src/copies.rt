//! Fields whose numbers are replaced, once more.

ghost use Rattle.std.specs.Prelude.{◌≡◌, IfOk};

use cl_base::name::{Name, NoMemory};
use cl_mean::labels::RedactField;
use sqlite_items::Items;
use std::alloc::Global;

fn copy_path(alloc: Global, path: &[Name]) -> Result<Items<Name>, NoMemory>
    ensures { IfOk result (λ p. p ≡ path.now) }
{
    let mut copied = Items::new(alloc);
    for part in path {
        copied.push(part.copy(alloc)?)?;
    }
    Ok(copied)
}

fn copy_field(alloc: Global, field: &RedactField) -> Result<RedactField, NoMemory>
    ensures { IfOk result (λ f. f ≡ field.now) }
{
    let path = copy_path(alloc, field.path.as_slice())?;
    Ok(RedactField {
        reply: field.reply,
        path,
        with: field.with,
    })
}

pub fn copy_fields(alloc: Global, fields: &[RedactField]) -> Result<Items<RedactField>, NoMemory>
    ensures { IfOk result (λ fs. fs ≡ fields.now) }
{
    let mut copied = Items::new(alloc);
    for field in fields {
        copied.push(copy_field(alloc, field)?)?;
    }
    Ok(copied)
}
