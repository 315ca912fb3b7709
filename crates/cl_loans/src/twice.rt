//! Whether a variable is lent twice.

ghost use Rattle.std.specs.Prelude.{◌≡◌, ◌↔◌, ◌<◌, ◌+◌, length, drop, Contains, IsTrue};
ghost use Rattle.cl_levels.specs.Crossings.{LentTwice};
ghost use Rattle.cl_loans.specs.Loans.{same};

use cl_levels::uses::Variable;

fn same(a: &Variable, b: &Variable) -> bool
    ensures { result ≡ same a.now b.now }
{
    match (a, b) {
        (Variable::Static(j), Variable::Static(k)) => j == k,
        (Variable::Local(j), Variable::Local(k)) => j == k,
        (Variable::Static(_), Variable::Local(_)) => false,
        (Variable::Local(_), Variable::Static(_)) => false,
    }
}

/// Whether a variable is one of these.
fn has(variables: &[Variable], variable: &Variable) -> bool
    ensures { IsTrue result ↔ Contains variables.now variable.now }
{
    for other in variables {
        if same(other, variable) {
            return true;
        }
    }
    false
}

/// The variables behind one of them.
fn behind(variables: &[Variable], i: usize) -> &[Variable]
    requires { i < length variables.now }
    ensures { result.now ≡ drop (i + 1) variables.now }
{
    &variables[i + 1..]
}

/// Whether a variable is twice among these. A call has so few arguments that each is compared with those behind it.
pub fn is_twice(variables: &[Variable]) -> bool
    ensures { IsTrue result ↔ LentTwice variables.now }
{
    for (i, variable) in variables.iter().enumerate() {
        if has(behind(variables, i), variable) {
            return true;
        }
    }
    false
}
