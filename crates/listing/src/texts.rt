// The text of a listing's lines.
mod actions;
mod lines;
