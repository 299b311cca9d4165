//! What sinks are tried with.

/// How a chunk comes to a sink: by itself, or with its column of keys, whose flag says that it is sorted
/// or not.
#[derive(Clone, Copy)]
pub(crate) enum Way {
    Whole,
    Sorted(bool),
}

/// A query's slice, whether it keeps order and whether it keeps texts; partitions; how many sinks take
/// the chunks in turn; the index of the first chunk; and how each chunk comes.
#[derive(Clone, Copy)]
pub(crate) struct Case {
    pub(crate) slice: Option<(i64, usize)>,
    pub(crate) keeps_order: bool,
    pub(crate) texts: bool,
    pub(crate) partitions: usize,
    pub(crate) sinks: u32,
    pub(crate) first: u32,
    pub(crate) way: Way,
}

/// Two sinks of two partitions, which take the chunks in turn and are combined.
pub(crate) const TWO_SINKS: Case = Case {
    slice: None,
    keeps_order: false,
    texts: false,
    partitions: 2,
    sinks: 2,
    first: 0,
    way: Way::Whole,
};

/// Three sinks of seven partitions, which keep order and texts, under a slice.
pub(crate) const THREE_SINKS: Case = Case {
    slice: Some((1, 3)),
    keeps_order: true,
    texts: true,
    partitions: 7,
    sinks: 3,
    first: 2,
    way: Way::Sorted(true),
};
