//! The sections of a certificate: a line for each cell, point, entry or target.
ghost use Rattle.std.specs.Prelude.{◌≡◌, ◌<◌, length};
ghost use Rattle.exact_math.specs.Orders.{IsOrder};
ghost use Rattle.cell_lists.specs.Lists.{AreLists};
ghost use Rattle.field_certificate.specs.ProgramLines.{at_text, box_text, entries_text, listed_text, local_text, multipole_text, node_text, texts};
ghost use Rattle.io_ports.specs.Bytes.{Writes};
ghost use Rattle.io_ports.specs.Faults.{HasCause};
ghost use Rattle.limits.specs.Limits.{IsGrid};
ghost use Rattle.quadtree.specs.TreeModel.{size};

use crate::lines::{put_at, put_entry, put_local, put_multipole, put_node, put_target};
use cell_lists::EntryLists;
use field_solve::Field;
use io_ports::{Sink, WriteFault};
use letters::Letter;
use quadtree::Tree;

/// Appends the line of each cell: its parent's number, and the cell.
pub(crate) fn write_nodes<S: Sink>(tree: &Tree, sink: &mut S) -> Result<(), WriteFault>
    ensures bytes { Writes result (S.held sink.old) (S.held sink.new) (texts (node_text tree.now) (size tree.now)) }
    ensures cause { HasCause (S.faults sink.old) (S.faults sink.new) result }
{
    let cells = tree.cells();
    for n in 0..cells.len() {
        put_node(tree.parent(n), cells[n], sink)?;
    }
    Ok(())
}

/// Appends the line of each of the tree's points: the number of its leaf.
pub(crate) fn write_ats<S: Sink>(tree: &Tree, points: usize, sink: &mut S) -> Result<(), WriteFault>
    requires { points ≡ length tree.now.leaves }
    ensures bytes { Writes result (S.held sink.old) (S.held sink.new) (texts (at_text tree.now) points) }
    ensures cause { HasCause (S.faults sink.old) (S.faults sink.new) result }
{
    for k in 0..points {
        put_at(tree.leaf_of(k), sink)?;
    }
    Ok(())
}

/// Appends the line of each cell's multipole row.
pub(crate) fn write_multipoles<const P: usize, S: Sink>(
    field: &Field<P>,
    sink: &mut S,
) -> Result<(), WriteFault>
    requires { IsOrder P }
    ensures bytes { Writes result (S.held sink.old) (S.held sink.new) (texts (multipole_text P field.now) (size field.now.basis.tree)) }
    ensures cause { HasCause (S.faults sink.old) (S.faults sink.new) result }
{
    for n in 0..field.tree().cells().len() {
        put_multipole(field.up(n), sink)?;
    }
    Ok(())
}

// Appends the lines of the entries of a letter of cell `b`.
fn write_list<S: Sink>(
    letter: Letter,
    b: usize,
    cells: &[u32],
    sink: &mut S,
) -> Result<(), WriteFault>
    ensures bytes { Writes result (S.held sink.old) (S.held sink.new) (listed_text letter b cells.now) }
    ensures cause { HasCause (S.faults sink.old) (S.faults sink.new) result }
{
    for c in cells {
        put_entry(letter, b, *c as usize, sink)?;
    }
    Ok(())
}

// Appends the lines of the entries of cell `b`, one letter after the other.
fn write_cell_entries<S: Sink>(lists: &EntryLists, b: usize, sink: &mut S) -> Result<(), WriteFault>
    requires u { b < length lists.now.u }
    requires v { b < length lists.now.v }
    requires w { b < length lists.now.w }
    requires x { b < length lists.now.x }
    ensures bytes { Writes result (S.held sink.old) (S.held sink.new) (entries_text lists.now b) }
    ensures cause { HasCause (S.faults sink.old) (S.faults sink.new) result }
{
    write_list(Letter::U, b, lists.u_list(b), sink)?;
    write_list(Letter::V, b, lists.v_list(b), sink)?;
    write_list(Letter::W, b, lists.w_list(b), sink)?;
    write_list(Letter::X, b, lists.x_list(b), sink)
}

/// Appends the lines of all entries, cell by cell.
pub(crate) fn write_entries<const P: usize, S: Sink>(
    field: &Field<P>,
    sink: &mut S,
) -> Result<(), WriteFault>
    requires { AreLists field.now.basis.tree field.now.basis.lists }
    ensures bytes { Writes result (S.held sink.old) (S.held sink.new) (texts (entries_text field.now.basis.lists) (size field.now.basis.tree)) }
    ensures cause { HasCause (S.faults sink.old) (S.faults sink.new) result }
{
    for b in 0..field.tree().cells().len() {
        write_cell_entries(field.lists(), b, sink)?;
    }
    Ok(())
}

/// Appends the line of each cell's radius and local row.
pub(crate) fn write_locals<const P: usize, S: Sink>(
    field: &Field<P>,
    sink: &mut S,
) -> Result<(), WriteFault>
    requires { IsOrder P }
    ensures bytes { Writes result (S.held sink.old) (S.held sink.new) (texts (local_text P field.now) (size field.now.basis.tree)) }
    ensures cause { HasCause (S.faults sink.old) (S.faults sink.new) result }
{
    for n in 0..field.tree().cells().len() {
        put_local(field.radius(n), field.local(n), sink)?;
    }
    Ok(())
}

/// Appends the line of each target: its box and its counts.
pub(crate) fn write_targets<const P: usize, S: Sink>(
    field: &Field<P>,
    sink: &mut S,
) -> Result<(), WriteFault>
    requires { IsGrid field.now.basis.tree.grid }
    ensures bytes { Writes result (S.held sink.old) (S.held sink.new) (texts (box_text field.now.values) (length field.now.values)) }
    ensures cause { HasCause (S.faults sink.old) (S.faults sink.new) result }
{
    for k in 0..field.targets() {
        put_target(field.value(k), sink)?;
    }
    Ok(())
}
