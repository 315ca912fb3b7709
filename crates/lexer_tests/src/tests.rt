// Tables of sources. Each stands in a constant, since a table within a test makes its proof slow.

mod directives;
mod literals;
mod many;
mod marks;
mod shown;
mod tokens;
