//! The lines of a summary, each put before the text behind it.
ghost use Rattle.std.specs.Prelude.{◌≡◌, ◌+◌, ◌≤◌, ◌++◌, length, sum_by, map, max, codes, decimal};
ghost use Rattle.std.specs.List.{count_by, fold, range_with_len};
ghost use Rattle.cell_lists.specs.EntryLists.{lists_of};
ghost use Rattle.complex_box.specs.Box.{box_ends};
ghost use Rattle.letters.specs.declared.Letter.TheVariants.{U, V, W, X};
ghost use Rattle.limits.specs.Limits.{first_grid};
ghost use Rattle.points.specs.Points.{is_source};
ghost use Rattle.quadtree.specs.TreeModel.{size, node_of, IsTree};
ghost use Rattle.report_lines.specs.Report.{work_line};
ghost use Rattle.sample_summary.specs.Summary.{summary_text, width};
ghost use Rattle.field_solve.specs.Field.{IsSolved};
ghost use Rattle.tree_field.specs.Lists.{OfTreeLists};

use crate::numbers::{leaf_count, source_count};
use crate::widths::Widest;
use cell_lists::EntryLists;
use field_solve::Field;
use letters::Letter;
use line_text::FrontText;
use points::Point;
use quadtree::Tree;

/// The seven lines grow from their end to their front, in at most this many bytes.
const TEXT: usize = 512;

/// `sample SEED N order P cap CAP`
fn prepend_sample(text: &mut FrontText<TEXT>, seed: u32, n: u64, order: u64, cap: u32)
    requires { 101 + length text.old ≤ TEXT }
    ensures { text.new ≡ codes "sample " ++ decimal seed ++ codes " " ++ decimal n
        ++ codes " order " ++ decimal order ++ codes " cap " ++ decimal cap ++ codes "\n" ++ text.old }
{
    text.prepend(b'\n');
    text.prepend_decimal(u64::from(cap));
    text.prepend_word(b" cap ");
    text.prepend_decimal(order);
    text.prepend_word(b" order ");
    text.prepend_decimal(n);
    text.prepend(b' ');
    text.prepend_decimal(u64::from(seed));
    text.prepend_word(b"sample ");
}

/// `points N sources S targets T`
fn prepend_points(text: &mut FrontText<TEXT>, points: &[Point], targets: u64)
    requires { 86 + length text.old ≤ TEXT }
    ensures text { text.new ≡ codes "points " ++ decimal (length points.now) ++ codes " sources " ++ decimal (count_by (λ p. is_source p.kind) points.now)
        ++ codes " targets " ++ decimal targets ++ codes "\n" ++ text.old }
    ensures length { length text.new ≤ 86 + length text.old }
{
    text.prepend(b'\n');
    text.prepend_decimal(targets);
    text.prepend_word(b" targets ");
    text.prepend_decimal(source_count(points));
    text.prepend_word(b" sources ");
    text.prepend_decimal(points.len() as u64);
    text.prepend_word(b"points ");
}

/// `tree cells C leaves L`
fn prepend_tree(text: &mut FrontText<TEXT>, tree: &Tree)
    requires { 60 + length text.old ≤ TEXT }
    ensures text { text.new ≡ codes "tree cells " ++ decimal (size tree.now)
        ++ codes " leaves " ++ decimal (count_by (λ n. (node_of tree.now n).is_leaf) (range_with_len 0 (size tree.now))) ++ codes "\n" ++ text.old }
    ensures length { length text.new ≤ 60 + length text.old }
    ensures tree { IsTree tree.now }
{
    text.prepend(b'\n');
    text.prepend_decimal(leaf_count(tree));
    text.prepend_word(b" leaves ");
    text.prepend_decimal(tree.cells().len() as u64);
    text.prepend_word(b"tree cells ");
}

/// `lists u NU v NV w NW x NX`
fn prepend_lists(text: &mut FrontText<TEXT>, lists: &EntryLists)
    requires { 98 + length text.old ≤ TEXT }
    ensures text { text.new ≡ codes "lists u " ++ decimal (sum_by (λ list. length list) (lists_of lists.now U))
        ++ codes " v " ++ decimal (sum_by (λ list. length list) (lists_of lists.now V))
        ++ codes " w " ++ decimal (sum_by (λ list. length list) (lists_of lists.now W))
        ++ codes " x " ++ decimal (sum_by (λ list. length list) (lists_of lists.now X)) ++ codes "\n" ++ text.old }
    ensures length { length text.new ≤ 98 + length text.old }
{
    text.prepend(b'\n');
    text.prepend_decimal(lists.total(Letter::X));
    text.prepend_word(b" x ");
    text.prepend_decimal(lists.total(Letter::W));
    text.prepend_word(b" w ");
    text.prepend_decimal(lists.total(Letter::V));
    text.prepend_word(b" v ");
    text.prepend_decimal(lists.total(Letter::U));
    text.prepend_word(b"lists u ");
}

/// `work translations A pairs B`
fn prepend_work(text: &mut FrontText<TEXT>, translations: u64, pairs: u64)
    requires { 66 + length text.old ≤ TEXT }
    ensures text { text.new ≡ work_line translations pairs ++ text.old }
    ensures length { length text.new ≤ 66 + length text.old }
{
    text.prepend(b'\n');
    text.prepend_decimal(pairs);
    text.prepend_word(b" pairs ");
    text.prepend_decimal(translations);
    text.prepend_word(b"work translations ");
}

/// `widest re A im B`
fn prepend_widest(text: &mut FrontText<TEXT>, widest: Widest)
    requires { 93 + length text.old ≤ TEXT }
    ensures text { text.new ≡ codes "widest re " ++ decimal widest.re ++ codes " im " ++ decimal widest.im ++ codes "\n" ++ text.old }
    ensures length { length text.new ≤ 93 + length text.old }
{
    text.prepend(b'\n');
    text.prepend_wide(widest.im);
    text.prepend_word(b" im ");
    text.prepend_wide(widest.re);
    text.prepend_word(b"widest re ");
}

/// The seven lines of the summary of a sample, from its points and their field.
pub(crate) fn summary_text<const P: usize>(
    seed: u32,
    points: &[Point],
    cap: u32,
    field: &Field<P>,
) -> FrontText<TEXT>
    requires solved { IsSolved points.now cap P field.now }
    requires grid { field.now.basis.tree.grid ≡ first_grid }
    ensures { OfTreeLists first_grid points.now cap (λ lists. result ≡ summary_text seed points.now P cap lists) }
{
    let mut text = FrontText::new();
    text.prepend_word(b"end\n");
    prepend_widest(&mut text, Widest::of(field));
    prepend_work(&mut text, field.translations(), field.pairs());
    prepend_lists(&mut text, field.lists());
    prepend_tree(&mut text, field.tree());
    prepend_points(&mut text, points, field.targets() as u64);
    prepend_sample(&mut text, seed, points.len() as u64, P as u64, cap);
    text
}
