//! Canonical integers, and values that are none.

use super::*;

/// The least and the greatest of 128 bits.
#[test]
fn integers_are_read(rt: HostRuntime) {
    for (spelling, number) in [
        ("\"0\"^^<http://www.w3.org/2001/XMLSchema#integer>", 0),
        ("\"10\"^^<http://www.w3.org/2001/XMLSchema#integer>", 10),
        ("\"-3\"^^<http://www.w3.org/2001/XMLSchema#integer>", -3),
        (
            "\"170141183460469231731687303715884105727\"^^<http://www.w3.org/2001/XMLSchema#integer>",
            i128::MAX,
        ),
        (
            "\"-170141183460469231731687303715884105728\"^^<http://www.w3.org/2001/XMLSchema#integer>",
            i128::MIN,
        ),
    ] {
        assert_eq!(rt; number_of(spelling.as_bytes()), Some(number));
    }
}

/// One beyond either end, other digits of a number, other types, a plain text and a node.
#[test]
fn other_values_are_none(rt: HostRuntime) {
    for spelling in [
        "\"170141183460469231731687303715884105728\"^^<http://www.w3.org/2001/XMLSchema#integer>",
        "\"-170141183460469231731687303715884105729\"^^<http://www.w3.org/2001/XMLSchema#integer>",
        "\"01\"^^<http://www.w3.org/2001/XMLSchema#integer>",
        "\"-0\"^^<http://www.w3.org/2001/XMLSchema#integer>",
        "\"+1\"^^<http://www.w3.org/2001/XMLSchema#integer>",
        "\"\"^^<http://www.w3.org/2001/XMLSchema#integer>",
        "\"-\"^^<http://www.w3.org/2001/XMLSchema#integer>",
        "\" 1\"^^<http://www.w3.org/2001/XMLSchema#integer>",
        "\"1\"^^<http://www.w3.org/2001/XMLSchema#int>",
        "\"1\"@en",
        "\"1\"",
        "<1>",
        "",
    ] {
        assert!(rt; number_of(spelling.as_bytes()).is_none());
    }
}
