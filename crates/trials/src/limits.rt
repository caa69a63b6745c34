// The limits of settings and of ends.
use model::ends::Ends;
use model::refusal::Refusal;
use model::settings::Settings;
use std::test::Fail;

// The number with which settings are refused, if they are.
fn number_of_refusal(height: u32, threshold: u32) -> Option<u8> {
    Settings::new(height, threshold).err().map(Refusal::number)
}

#[test]
fn settings_at_their_limits(rt: HostRuntime) {
    assert!(rt; number_of_refusal(0, 1) == Some(8));
    assert!(rt; number_of_refusal(1, 1).is_none());
    assert!(rt; number_of_refusal(255, 100).is_none());
    assert!(rt; number_of_refusal(256, 100) == Some(8));
    assert!(rt; number_of_refusal(1, 0) == Some(8));
    assert!(rt; number_of_refusal(1, 101) == Some(8));
}

#[test]
fn ends_are_two_stations_lower_first(rt: HostRuntime) -> Result<(), Fail> {
    assert!(rt; Ends::of_row(3, 3).is_none());
    assert!(rt; Ends::of_row(4, 3).is_none());
    assert!(rt; Ends::between(3, 3).is_none());
    let Some(ends) = Ends::between(4, 3) else {
        return Err(Fail::new("no ends"));
    };
    assert!(rt; ends.low() == 3 && ends.high() == 4);
    Ok(())
}

#[test]
fn refusals_have_their_numbers(rt: HostRuntime) {
    assert!(rt; Refusal::Unfit.number() == 1);
    assert!(rt; Refusal::LabelsFull.number() == 10);
    assert!(rt; Refusal::BadRecord.number() == 17);
}
