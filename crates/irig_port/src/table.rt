//! Which widths are right, element by element, since a pulse looks up its element.
//!
//! Source: IRIG Standard 200-16, format B, code B004. The crate's proof compares the table with the
//! marker places.

ghost use Rattle.std.specs.Prelude.{◌≡◌, ◌<◌, if◌then◌else◌, slice_index_or};
ghost use Rattle.irig_frame.specs.FieldTable.{is_marker_place};

/// The widths of a pulse that is right, in microseconds: the least one, and how many there are.
#[derive(Clone, Copy)]
pub struct Widths {
    pub least_us: u32,
    pub count_us: u32,
}

// At a marker place, where a marker is right.
const P: Widths = Widths {
    least_us: 6500,
    count_us: 3000,
};

// Elsewhere, where a 0 or a 1 is.
const D: Widths = Widths {
    least_us: 500,
    count_us: 6000,
};

// Elements 0 to 99, and one past the frame, where nothing counts.
static WIDTHS: [Widths; 101] = [
    P, D, D, D, D, D, D, D, D, //
    P, D, D, D, D, D, D, D, D, D, //
    P, D, D, D, D, D, D, D, D, D, //
    P, D, D, D, D, D, D, D, D, D, //
    P, D, D, D, D, D, D, D, D, D, //
    P, D, D, D, D, D, D, D, D, D, //
    P, D, D, D, D, D, D, D, D, D, //
    P, D, D, D, D, D, D, D, D, D, //
    P, D, D, D, D, D, D, D, D, D, //
    P, D, D, D, D, D, D, D, D, D, //
    P, P,
];

#[inline]
pub(crate) fn widths_of(element: usize) -> &'static Widths
    requires { element < 101 }
    ensures least { element < 100
        → result.now.least_us ≡ (if is_marker_place element then 6500 else 500) }
    ensures count { element < 100
        → result.now.count_us ≡ (if is_marker_place element then 3000 else 6000) }
{
    table_widths(element)
}

// Apart from `widths_of`, whose clauses follow from this one.
#[inline]
fn table_widths(element: usize) -> &'static Widths
    requires { element < 101 }
    ensures { result.now ≡ slice_index_or WIDTHS element result.now }
{
    &WIDTHS[element]
}
