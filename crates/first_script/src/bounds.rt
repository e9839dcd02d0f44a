//! The numbers of the script's form, by name. The product's limits stand in `first_model::limits`, and those of a
//! text in `first_text`.

/// Bytes of a script.
pub const MAX_SCRIPT_BYTES: usize = first_text::MAX_TEXT_BYTES;
/// Digits of a whole number.
pub const MAX_DIGITS: usize = 10;

/// Heights are millimetres.
pub const HEIGHT_SCALE: u8 = 3;
/// Latitude and longitude are 1e-7 degree.
pub const PLACE_SCALE: u8 = 7;

/// Latitude in 1e-7 degree, north of the equator and south of it.
pub const MAX_LATITUDE: i32 = 900_000_000;
/// Longitude in 1e-7 degree, east of Greenwich and west of it.
pub const MAX_LONGITUDE: i32 = 1_800_000_000;
/// The lowest height of a home.
pub const MIN_HEIGHT: i32 = -10_000_000;
/// The greatest height of a home.
pub const MAX_HEIGHT: i32 = 100_000_000;
