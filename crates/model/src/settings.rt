// What a build is asked to keep to.
ghost use Rattle.std.specs.Prelude.{◌≡◌, ◌≤◌};
ghost use Rattle.model.specs.Small.{ok_mapped, settings_of};

use crate::refusal::Refusal;

// A height limit from 1 to 255, and the percentage of its size that a network may keep for the climb to go on.
#[derive(Clone, Copy, PartialEq, Eq, Debug)]
pub struct Settings {
    height: u8,
    threshold: u8,
    ghost limits: { (1 ≤ height) × (height ≤ 255) × (1 ≤ threshold) × (threshold ≤ 100) },
}

impl Settings {
    // Settings of these numbers, or their refusal.
    pub fn new(height: u32, threshold: u32) -> Result<Settings, Refusal>
        ensures { ok_mapped (λ s. (s.height, s.threshold)) result ≡ settings_of height threshold }
    {
        let (Ok(height @ 1..), Ok(threshold @ 1..=100)) = (
            u8::try_from(height),
            u8::try_from(threshold),
        ) else {
            return Err(Refusal::BadSettings);
        };
        Ok(Settings { height, threshold })
    }

    pub fn height(self) -> u8
        ensures { result ≡ self.height }
    {
        self.height
    }

    pub fn threshold(self) -> u8
        ensures { result ≡ self.threshold }
    {
        self.threshold
    }
}
