//! The orders that the program offers.

/// Calls a function of an order and of these types at the order that a number names.
macro_rules! at_order {
    ($order:expr, $call:ident, ($($of:ident),+), $($argument:expr),+) => {
        match $order {
            4 => $call::<4, $($of),+>($($argument),+),
            8 => $call::<8, $($of),+>($($argument),+),
            16 => $call::<16, $($of),+>($($argument),+),
            24 => $call::<24, $($of),+>($($argument),+),
            _ => $call::<32, $($of),+>($($argument),+),
        }
    };
}

pub(crate) use at_order;
