//! The three functions that are known from the start.

ghost use Rattle.std.specs.Prelude.{◌≡◌};
ghost use Rattle.cl_typing.specs.Scope as scope;

use cl_base::name::Name;

/// Whether it is `printf`, `putchar` or `getchar`.
#[tactic(auto, unfolding(cl_typing::specs::Scope::is_library))]
pub fn is_library(name: &Name) -> bool
    ensures { result ≡ scope.is_library name.now }
{
    let text = name.text();
    if text == "printf" {
        return true;
    }
    if text == "putchar" {
        return true;
    }
    text == "getchar"
}
