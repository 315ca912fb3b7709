//! How a level comes to a function.

/// It calls a function of its own, it asks another level by a row, or there is no way.
#[derive(Clone, Copy, Debug, PartialEq, Eq)]
pub enum Route {
    Within,
    Across(u32),
    Astray,
}
