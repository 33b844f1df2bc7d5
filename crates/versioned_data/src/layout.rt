// How an entry stands in a row of the store (specs/Layout.antt).
use store::read::Rows;

// The words of a payload.
pub const WIDTH: usize = 22;

// A spot has one row.
pub const PARTS: usize = 0;

pub type DataRows<'a> = Rows<'a, WIDTH, PARTS>;

pub const CONTENT: usize = 20;

// A delta with a shortcut has the shortcut's words here in its content.
pub const SHORTCUT: usize = 16;
