use cert_check::CheckFault;
use lb_desk_model::Refusal;

const NUMBERS: &[(Refusal, u16)] = &[
    (Refusal::NoSuchServer, 10),
    (Refusal::OutOfRange, 11),
    (Refusal::NotChecked, 12),
    (Refusal::Full, 30),
    (Refusal::NotServing, 31),
    (Refusal::NotOpen, 32),
    (Refusal::TableFull, 60),
    (Refusal::Stale, 70),
    (Refusal::Bad(CheckFault::NotShown), 71),
    (Refusal::NoServer, 80),
];

#[test]
fn refusals_have_their_numbers(rt: HostRuntime) {
    for (refusal, number) in NUMBERS {
        assert_eq!(rt; refusal.number(), *number);
    }
}
