// Rows that are numbered: one line for each declaration of a sort.
ghost use Rattle.std.specs.Prelude.{◌≡◌, ℕ, ◌+◌, ◌^◌, ◌<◌, ◌++◌, length, OnOk};
ghost use Rattle.listing.specs.declared.lines.Line.{Line as Shown};
ghost use Rattle.listing.specs.Lines.{section};
ghost use Rattle.listing.specs.Numbered.{numbered, GivesRows};

use super::lines::{Line, Sort};
use std::alloc::AllocError;

// Adds a row for each of the items, numbered from `first` on.
pub fn add_rows<T: Copy, R: Drop, F: Fn(usize, T) -> R>(
    rows: &mut Vec<R>,
    items: &[T],
    first: usize,
    row: F,
) -> Result<(), AllocError>
    requires { F.IsAlwaysCallable row }
    ensures { (row_of : ℕ → T → R) → GivesRows (F.post row) row_of → first + length items.now < 2 ^ 64 → OnOk result (rows.new.items ≡ rows.old.items ++ numbered row_of first items.now) }
{
    rows.extend(
        items
            .iter()
            .enumerate()
            .map(|(index, item)| row(first.saturating_add(index), *item)),
    )
}

// Adds a heading with the number of the items, then a line for each.
pub fn list_sort<T: Copy, F: Fn(usize, T) -> Line>(
    lines: &mut Vec<Line>,
    sort: Sort,
    items: &[T],
    line: F,
) -> Result<(), AllocError>
    requires { F.IsAlwaysCallable line }
    ensures { (line_of : ℕ → T → Shown) → GivesRows (F.post line) line_of → OnOk result (lines.new.items ≡ lines.old.items ++ section sort line_of items.now) }
{
    lines.push(Line::Heading {
        sort,
        count: items.len(),
    })?;
    add_rows(lines, items, 0, line)
}
