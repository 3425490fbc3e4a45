//! Which column of its lane a bar stands in.
ghost use Rattle.std.specs.Prelude.{◌≡◌, map, IfOk};

use crate::Bar;
use cb_page::{ClientNo, PageNo};
use std::alloc::{AllocError, Global};

/// A bar with its column in the lane of its client, from 0.
#[derive(Clone, Copy)]
pub(crate) struct PlacedBar {
    pub(crate) bar: Bar,
    pub(crate) column: u16,
}

/// A column of a client's lane, with the bar that stood in it last.
#[derive(Clone, Copy)]
struct Column {
    client: ClientNo,
    number: u16,
    page: PageNo,
    last: u16,
}

/// Each bar in a column of its client's lane that is free: that in which its page stood last, else
/// the first one. `AllocError` only if memory was refused.
pub(crate) fn place_bars(alloc: Global, bars: &[Bar]) -> Result<Vec<PlacedBar>, AllocError>
    ensures { IfOk result (λ placed. map (λ one. one.bar) placed.items ≡ bars.now) }
{
    let mut columns = Vec::new(alloc);
    let mut placed = Vec::with_capacity(alloc, bars.len())?;
    for bar in bars {
        let column = place(&mut columns, bar)?;
        placed.push(PlacedBar { bar: *bar, column })?;
    }
    Ok(placed)
}

/// The column of the next bar.
fn place(columns: &mut Vec<Column>, bar: &Bar) -> Result<u16, AllocError> {
    if let Some(at) = free(columns.as_slice(), bar) {
        if at < columns.len() {
            let number = columns[at].number;
            columns[at] = column_of(bar, number);
            return Ok(number);
        }
    }
    let number = next_number(columns.as_slice(), bar.copy.client);
    columns.push(column_of(bar, number))?;
    Ok(number)
}

/// The column of that number, where the bar stands in it.
fn column_of(bar: &Bar, number: u16) -> Column {
    Column {
        client: bar.copy.client,
        number,
        page: bar.copy.page,
        last: bar.last,
    }
}

/// The column that the bar may stand in.
fn free(columns: &[Column], bar: &Bar) -> Option<usize> {
    let own = columns.iter().position(|column| {
        column.client == bar.copy.client && column.page == bar.copy.page && column.last < bar.first
    });
    if own.is_some() {
        return own;
    }
    columns.iter().position(|column| column.client == bar.copy.client && column.last < bar.first)
}

/// The number of the client's next column.
fn next_number(columns: &[Column], client: ClientNo) -> u16 {
    let mut next: u16 = 0;
    for column in columns {
        if column.client == client {
            next = column.number.saturating_add(1);
        }
    }
    next
}
