ghost use Rattle.std.specs.Prelude.{◌≡◌, ◌⊎◌, ◌≤◌, All, AllPairs, Any};
ghost use Rattle.pin_file_return.specs.Ages.{IsGreatestAge};

use pin_file::{FilePin, PinFile};

/// How many milliseconds before the file was made its pin was used that wasn't used for longest. 0 without pins.
///
/// It costs a look at the first pin of each backend.
pub fn greatest_age(file: &PinFile) -> u64
    ensures { IsGreatestAge file.now result }
{
    let mut greatest = 0;
    for backend in file.backends() {
        greatest = first_age(backend.pins.as_slice()).max(greatest);
    }
    greatest
}

/// The age of the first pin, which is the greatest. 0 without pins.
fn first_age(pins: &[FilePin]) -> u64
    requires { AllPairs (λ p q. q.age ≤ p.age) pins.now }
    ensures above { All (λ p. p.age ≤ result) pins.now }
    ensures reached { (result ≡ 0) ⊎ Any (λ p. p.age ≡ result) pins.now }
{
    match pins.first() {
        Some(pin) => pin.age,
        None => 0,
    }
}
