use lb_config_arguments::{Fault, read_ipv4, read_name, read_number, read_size, read_time};
use std::net::Ipv4Addr;

/// What a word is read as.
#[derive(Clone, Copy)]
enum Kind {
    Time,
    Size,
    /// A number from 1 to 1000.
    Number,
    /// 1 for a name.
    Name,
}

/// The number that was read, or none for a fault.
fn number<T: Drop>(read: Result<T, Fault>) -> Option<T> {
    match read {
        Ok(number) => Some(number),
        Err(_) => None,
    }
}

/// The number that the word is.
fn read(kind: Kind, word: &str) -> Option<u64> {
    let bytes = word.as_bytes();
    match kind {
        Kind::Time => number(read_time(bytes)).map(u64::from),
        Kind::Size => number(read_size(bytes)).map(u64::from),
        Kind::Number => number(read_number(1, 1000, bytes)),
        Kind::Name => match read_name(bytes) {
            Ok(_) => Some(1),
            Err(Fault::BadName) => None,
            Err(_) => Some(2),
        },
    }
}

/// Words and the number that each is read as.
const WORDS: &[(Kind, &str, Option<u64>)] = &[
    (Kind::Time, "0", Some(0)),
    (Kind::Time, "0us", Some(0)),
    (Kind::Time, "1us", Some(1)),
    (Kind::Time, "1000us", Some(1)),
    (Kind::Time, "1001us", Some(2)),
    (Kind::Time, "1500us", Some(2)),
    (Kind::Time, "250", Some(250)),
    (Kind::Time, "250ms", Some(250)),
    (Kind::Time, "2s", Some(2_000)),
    (Kind::Time, "3m", Some(180_000)),
    (Kind::Time, "1h", Some(3_600_000)),
    (Kind::Time, "24d", Some(2_073_600_000)),
    (Kind::Time, "25d", None),
    (Kind::Time, "007", Some(7)),
    (Kind::Time, "2147483647", Some(2_147_483_647)),
    (Kind::Time, "2147483648", None),
    (Kind::Time, "2147483647000us", Some(2_147_483_647)),
    (Kind::Time, "2147483647001us", None),
    (Kind::Time, "18446744073709551616us", None),
    (Kind::Time, "213503982334602d", None),
    (Kind::Time, "", None),
    (Kind::Time, "s", None),
    (Kind::Time, "1 s", None),
    (Kind::Time, "1S", None),
    (Kind::Time, "1sm", None),
    (Kind::Time, "-1", None),
    (Kind::Time, "1.5s", None),
    (Kind::Size, "1", Some(1)),
    (Kind::Size, "1k", Some(1_024)),
    (Kind::Size, "16m", Some(16_777_216)),
    (Kind::Size, "16777216", Some(16_777_216)),
    (Kind::Size, "16777217", None),
    (Kind::Size, "1g", None),
    (Kind::Size, "0", None),
    (Kind::Size, "0k", None),
    (Kind::Size, "1K", None),
    (Kind::Size, "1kb", None),
    (Kind::Size, "k", None),
    (Kind::Number, "1", Some(1)),
    (Kind::Number, "1000", Some(1000)),
    (Kind::Number, "0000000000000000000000000001000", Some(1000)),
    (Kind::Number, "0", None),
    (Kind::Number, "1001", None),
    (Kind::Number, "18446744073709551617", None),
    (Kind::Number, "+1", None),
    (Kind::Number, "", None),
    (Kind::Name, "web-1", Some(1)),
    (Kind::Name, "", None),
    (Kind::Name, "-", None),
    (Kind::Name, "a/b", None),
];

/// Addresses, and the bytes of those that are one.
const ADDRESSES: &[(&str, Option<[u8; 4]>)] = &[
    ("10.0.0.7", Some([10, 0, 0, 7])),
    ("255.255.255.255", Some([255, 255, 255, 255])),
    ("10.0.0", None),
    ("10.0.0.7.1", None),
    ("10.0.0.", None),
    ("10.0.0.256", None),
    ("10.0.0.07", None),
    ("", None),
    ("localhost", None),
];

#[test]
fn times_sizes_numbers_names_and_addresses(rt: HostRuntime) {
    for (kind, word, wanted) in WORDS {
        assert_eq!(rt; read(*kind, *word), *wanted, "{word}");
    }
    for (text, bytes) in ADDRESSES {
        let wanted = bytes.map(|[a, b, c, d]| Ipv4Addr::new(a, b, c, d));
        assert_eq!(rt; read_ipv4(text.as_bytes()), wanted, "{text}");
    }
}
