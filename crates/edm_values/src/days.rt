//! Days: which there are, and their parts.
ghost use Rattle.std.specs.Prelude.{◌≡◌, pos};
ghost use Rattle.edm_values.specs.Values.{day_of};

use crate::Day;
use jiff::civil::Date;

/// The first year.
const YEAR_MIN: i32 = 1;

/// The last year.
const YEAR_MAX: i32 = 9999;

impl Day {
    /// The day of this year, month and day of the month, if the calendar has it.
    pub fn new(year: i32, month: u8, day: u8) -> Option<Day>
        ensures value { result ≡ day_of year month day }
    {
        if year < YEAR_MIN || year > YEAR_MAX || month > 12 || day > 31 {
            return None;
        }
        match Date::new(year as i16, month as i8, day as i8) {
            Ok(_) => Some(Day {
                year: year as u16,
                month,
                day,
            }),
            Err(_) => None,
        }
    }

    /// The year, from 1 to 9999.
    pub fn year(&self) -> i32
        ensures value { result ≡ pos self.now.year }
    {
        i32::from(self.year)
    }

    /// The month, from 1 to 12.
    pub fn month(&self) -> u8
        ensures value { result ≡ self.now.month }
    {
        self.month
    }

    /// The day of the month, from 1.
    pub fn day(&self) -> u8
        ensures value { result ≡ self.now.day }
    {
        self.day
    }
}
