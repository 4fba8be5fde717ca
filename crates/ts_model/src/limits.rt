/// The most bytes of a term's spelling.
pub const TERM_LIMIT: usize = 1_048_576;

/// The numbers of layers are below it, and so are the numbers of a layer's terms and those of its predicates.
pub const NUMBER_LIMIT: u64 = 4_294_967_296;
