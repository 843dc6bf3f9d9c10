//! Files of pins, by their grammar: how many backends and pins each has, and that it is written as it was read.

use lb_types::Name;
use pin_file::{PinFile, push_backend, push_file, push_pin, read_pin, read_pin_file};
use std::test::Fail;

/// Files, each with the numbers of its backends and of all their pins.
const FILES: &[(&str, usize, usize)] = &[
    ("stickypins 1\nend\n", 0, 0),
    ("stickypins 1\nbackend web\nend\n", 1, 0),
    (
        "stickypins 1\nbackend web\npin ann - a 1 9000\npin a%20b a,b - 1000 0\nbackend api\npin 10.0.0.1 b b 7 5\nend\n",
        2,
        3,
    ),
];

/// Texts that are no file: of another version, cut short, with a cost of 0, with ages that rise, with a backend twice, with text after the
/// end.
const OTHERS: &[&str] = &[
    "",
    "stickypins 2\nend\n",
    "stickypins 1\n",
    "stickypins 1\nend",
    "stickypins 1\nbackend web\npin ann - a 0 0\nend\n",
    "stickypins 1\nbackend web\npin ann - a 1 1\npin bob - a 1 2\nend\n",
    "stickypins 1\nbackend web\nbackend web\nend\n",
    "stickypins 1\nend\nend\n",
];

fn pins_of(file: &PinFile) -> usize {
    let mut count: usize = 0;
    for backend in file.backends() {
        count = count.saturating_add(backend.pins.as_slice().len());
    }
    count
}

#[test]
fn files_of_pins_are_written_as_they_were_read(rt: HostRuntime) -> Result<(), Fail> {
    for (text, backends, pins) in FILES {
        let file = read_pin_file(rt.alloc(), text.as_bytes())?;
        let mut written = Vec::new(rt.alloc());
        push_file(&mut written, &file)?;
        let is_so = file.backends().len() == *backends && pins_of(&file) == *pins;
        assert!(rt; is_so && written.as_slice() == text.as_bytes(), "{text}");
    }
    Ok(())
}

#[test]
fn other_texts_are_no_files_of_pins(rt: HostRuntime) -> Result<(), Fail> {
    for text in OTHERS {
        assert!(rt;
            read_pin_file(rt.alloc(), text.as_bytes()).is_err(),
            "{text}"
        );
    }
    Ok(())
}

#[test]
fn lines_of_pins_are_written_as_they_were_read(rt: HostRuntime) -> Result<(), Fail> {
    let Some(pin) = read_pin(rt.alloc(), b"pin ann a,b a 3 120000")? else {
        return Err(Fail::new("the line is a pin's"));
    };
    assert!(rt; pin.cost == 3 && pin.age == 120_000);
    let mut text = Vec::new(rt.alloc());
    let name = Name::read(b"web")?;
    push_backend(&mut text, &name)?;
    push_pin(&mut text, &pin)?;
    assert!(rt; text.as_slice() == b"backend web\npin ann a,b a 3 120000\n".as_slice());
    Ok(())
}
