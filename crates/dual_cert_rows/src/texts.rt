//! Texts of plans and sheets, as they are written. What is found of them is in `tests/verify/` and `tests/plan/`.

use std::alloc::{AllocError, Global};

/// A plan of four pins, two of which move.
pub(crate) const FOUR_PINS: &str =
    "stickyplan 1\nversion 1\nserver a off\nserver b cap 2 price 0\nserver c cap 2 price 0\n\
        row 1 a b b,c\nrow 1 a c b,c\nrow 1 b b b,c\nrow 1 c c b,c\nend\n";

pub(crate) const PLANS: &[&str] = &[
    "stickyplan 1\nversion 0\nserver a cap 2 price 0\nend\n",
    FOUR_PINS,
    "stickyplan 1\nversion 1\nserver a off\nserver b cap 1 price 1\nserver c cap 1 price 0\n\
            row 1 a b b\nrow 1 b c b,c\nend\n",
    "stickyplan 1\nversion 1\nserver a off\nserver b cap 1 price 0\nserver c cap 1 price 0\n\
            row 1 a b b\nrow 1 b c b,c\nend\n",
    "stickyplan 1\nversion 1\nserver a cap 1 price 1\nserver b cap 10 price 0\n\
            row 1 a a a,b\nrow 2 a b a,b\nend\n",
    "stickyplan 1\nversion 1\nserver a off\nserver b cap 1 price 3\nrow 1 a - b\nrow 1 a b b\nend\n",
    "stickyplan 1\nversion 1\nserver a off\nserver b cap 1 price 2\nrow 1 - - b\nrow 1 a b b\nend\n",
    "stickyplan 1\nversion 1\nserver a off\nserver b off\nrow 3 a - -\nend\n",
    "stickyplan 1\nversion 1\nserver a cap 0 price 3\nrow 1 a - a\nend\n",
    "stickyplan 1\nversion 1\nserver a cap 0 price 0\nrow 1 a - a\nend\n",
    "stickyplan 1\nversion 1\nserver a cap 0 price 3\nrow 1 a a a\nend\n",
    "stickyplan 2\nversion 1\nserver a cap 1 price 1\nserver b cap 10 price 0\n\
            row 2 a b a,b 1\nrow 1 a a a,b 5\nend\n",
    "stickyplan 2\nversion 1\nserver a cap 1 price 6\nserver b cap 10 price 0\n\
            row 2 a b a,b 1\nrow 1 a a a,b 5\nend\n",
    "stickyplan 2\nversion 1\nserver a cap 2 price 2\nserver b cap 10 price 0\n\
            row 1 a b a,b 2\nrow 2 a a a,b 5\nend\n",
    "stickyplan 2\nversion 1\nserver a off\nserver b cap 1 price 1002\n\
            row 1 a b b 1\nrow 1 a - b 1000\nend\n",
    "stickyplan 1\nversion 7\nserver a off\nserver b cap 1 price 1\nserver c cap 1 price 0\n\
            row 1 a b b\nrow 1 b c b,c\nend\n",
    "stickyplan 1\nversion 1\nserver a off\nserver b cap 1 price 0\nrow 1 a a b\nend\n",
    "stickyplan 1\nversion 0\nserver a off\nserver b cap 1 price 0\nrow 1 b a b\nend\n",
    "stickyplan 1\nversion 0\nserver a cap 1 price 0\nserver b cap 1 price 0\nrow 1 b a b\nend\n",
    "stickyplan 1\nversion 1\nrow 1 - - -\nend\n",
    "stickyplan 1\nversion 7\nserver a off\nserver b cap 1 price 1\nrow 1 a b b\nend\n",
    "stickyplan 1\nversion 1\nserver a cap 0 price 3\nrow 1 a a -\nend\n",
    "stickyplan 1\nversion 1\nend\n",
    "stickyplan 1\nversion 1\nserver a off\nend\n",
    "stickyplan 1\nversion 1\nserver a cap 5 price 0\nserver b cap 5 price 0\nrow 1 a a a,b\nend\n",
    "stickyplan 1\nversion 2\nserver a cap 5 price 0\nserver b cap 5 price 0\n\
            row 1 a a a,b\nrow 1 b b a,b\nend\n",
    "stickyplan 1\nversion 2\nserver a cap 5 price 0\nserver b cap 5 price 0\nrow 2 a a a,b\nend\n",
    "stickyplan 1\nversion 4\nserver a cap 5 price 0\nserver b cap 5 price 0\nrow 1 a b b\nend\n",
    "stickyplan 1\nversion 2\nserver a off\nserver b cap 5 price 0\nrow 1 a b b\nend\n",
    "stickyplan 1\nversion 2\nserver a off\nserver b cap 5 price 1\nrow 1 a b b\nend\n",
    "stickyplan 1\nversion 2\nserver a off\nserver b cap 4 price 0\nrow 1 a b b\nend\n",
    "stickyplan 1\nversion 9\nserver a off\nserver b cap 5 price 1\nrow 1 a b b\nend\n",
    "stickyplan 1\nversion 9223372036854775808\nend\n",
    "stickyplan 1\nversion 1\nserver a cap 4294967295 price 1099511627775\nrow 16777216 a a a\nend\n",
    "stickyplan 1\nversion 1\nserver a cap 4294967295 price 0\nrow 16777216 a a a\nend\n",
    "stickyplan 1\nversion 1\nserver a cap 0 price 1099511627775\nrow 16777216 a - a\nend\n",
    "stickyplan 2\nversion 1\nserver a cap 0 price 1099511627775\nrow 16777216 a - a 1000\nend\n",
    "stickyplan 1\nversion 0\nrow 1 - - -\nend\n",
];

pub(crate) const SHEETS: &[&str] = &[
    // The pin of b makes way for the one that may go nowhere else.
    "stickysheet 1\nversion 1\nserver a off\nserver b cap 1\nserver c cap 1\n\
            group 1 a b\ngroup 1 b b,c\nend\n",
    "stickysheet 1\nversion 1\nserver a off\nserver b cap 1\ngroup 2 a b\nend\n",
    "stickysheet 1\nversion 1\nserver a off\nserver b cap 600000\nserver c cap 600000\n\
            group 1000000 a b,c\nend\n",
    // A drained server whose pins are tied in part: 130 of its own and 10 that make way.
    "stickysheet 1\nversion 12\nserver web1 off\nserver web2 cap 100\nserver web3 cap 120\n\
            server web4 cap 80\ngroup 40 web1 web2\ngroup 90 web1 web2,web3,web4\ngroup 20 web2 web2\n\
            group 50 web2 web2,web3,web4\ngroup 60 web3 web2,web3,web4\ngroup 25 web4 web4\n\
            group 15 web4 web2,web3,web4\nend\n",
    // The cheaper pin goes.
    "stickysheet 2\nversion 1\nserver a cap 1\nserver b cap 5\ngroup 1 a a,b 1\ngroup 1 a a,b 20\n\
            group 1 b a,b 1\nend\n",
    "stickysheet 1\nversion 0\nend\n",
    "stickysheet 1\nversion 0\ngroup 7 - -\nend\n",
    "stickysheet 1\nversion 9223372036854775808\nserver a off\nserver b off\ngroup 3 a -\nend\n",
    "stickysheet 1\nversion 1\nserver a cap 0\nserver b cap 0\ngroup 2 - a\ngroup 1 a a,b\nend\n",
    "stickysheet 1\nversion 1\nserver a cap 2\nserver b cap 1\ngroup 5 - a,b\nend\n",
    "stickysheet 2\nversion 1\nserver a cap 0\ngroup 16777216 a a 1000\nend\n",
    "stickysheet 1\nversion 0\nserver a cap 2\nend\n",
    "stickysheet 1\nversion 1\nend\n",
    "stickysheet 1\nversion 1\nserver a off\nend\n",
    "stickysheet 1\nversion 9223372036854775808\nend\n",
    "stickysheet 1\nversion 1\ngroup 1 - -\nend\n",
    "stickysheet 1\nversion 9223372036854775808\ngroup 16777216 - -\nend\n",
    "stickysheet 1\nversion 1\nserver a cap 4294967295\ngroup 16777216 a a\nend\n",
    "stickysheet 1\nversion 1\nserver a cap 0\ngroup 1 - a\ngroup 16777215 a a\nend\n",
    // Groups in their order: by place, then by set. Of those that may go nowhere one loses its place.
    "stickysheet 1\nversion 1\nserver a cap 5\nserver b cap 5\nserver c off\n\
            group 1 - -\ngroup 1 - a,b\ngroup 1 a -\ngroup 1 a a\ngroup 1 a b\ngroup 1 a a,b\ngroup 1 c b\nend\n",
    "stickysheet 2\nversion 1\nserver a cap 5\ngroup 1 a a 1\ngroup 1 a a 2\nend\n",
    "stickysheet 2\nversion 1\nserver a cap 5\ngroup 1 - a 9\ngroup 1 a a 1\nend\n",
    "stickysheet 2\nversion 1\nserver a cap 1\ngroup 1 a a 1000\nend\n",
    "stickysheet 2\nversion 1\nserver a cap 1\nserver b cap 10\ngroup 2 a a,b 1\ngroup 1 a a,b 5\nend\n",
    "stickysheet 2\nversion 1\nserver a off\nserver b cap 4294967295\ngroup 1 a b 1\ngroup 1 a b 1000\nend\n",
    "stickysheet 2\nversion 7\nserver a off\nserver b cap 1\ngroup 1 a b 5\nend\n",
    // The pin of a may go to b alone, so both of b make way.
    "stickysheet 2\nversion 7\nserver a off\nserver b cap 1\nserver c cap 4\ngroup 1 a b 3\ngroup 2 b b,c 1\nend\n",
];

/// Texts of many servers, which are called `s1`, `s2` and so on: what comes before them, how many there are, the usage of
/// each, and what comes after them.
pub(crate) const OF_MANY_SERVERS: &[(&str, u32, &str, &str)] = &[
    // The set of the 64th server stands before that of the 65th, and both before the set of the two.
    (
        "stickyplan 1\nversion 1\n",
        63,
        "cap 1 price 0",
        "server s64 cap 1 price 3\nserver s65 cap 1 price 3\n\
            row 1 - s64 s64\nrow 1 - s65 s65\nrow 1 - - s64,s65\nend\n",
    ),
    (
        "stickyplan 1\nversion 1\n",
        65,
        "cap 1 price 0",
        "row 1 - s64 s64\nrow 1 - s65 s65\nend\n",
    ),
    (
        "stickyplan 1\nversion 1\n",
        128,
        "cap 1 price 0",
        "row 1 - s64 s64,s65,s128\nrow 2 s128 - s1,s128\nend\n",
    ),
    (
        "stickyplan 1\nversion 1\n",
        128,
        "cap 1 price 0",
        "row 1 - s128 s128\nend\n",
    ),
    (
        "stickyplan 1\nversion 1\n",
        127,
        "off",
        "server s128 cap 1 price 0\nrow 1 - s128 s128\nend\n",
    ),
    (
        "stickysheet 1\nversion 1\n",
        65,
        "cap 1",
        "group 1 - s64\ngroup 1 - s65\nend\n",
    ),
    (
        "stickysheet 1\nversion 1\n",
        128,
        "cap 1",
        "group 1 - s128\nend\n",
    ),
    (
        "stickysheet 1\nversion 1\n",
        128,
        "cap 1",
        "group 1 - s64,s65,s128\ngroup 2 s128 s1,s128\nend\n",
    ),
];

/// Adds the lines of servers `s1` to `s<count>`, each with this usage.
pub(crate) fn add_servers(
    alloc: Global,
    count: u32,
    usage: &str,
    text: &mut String,
) -> Result<(), AllocError> {
    for number in 1..=count {
        let line = format!(in alloc; "server s{number} {usage}\n")?;
        text.push_str(&line)?;
    }
    Ok(())
}
