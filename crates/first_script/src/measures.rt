//! What lines of scaled numbers state.

ghost use Rattle.std.specs.Prelude.{◌≡◌, ◌-◌, ◌<◌, ◌≤◌, ◌≤ℤ◌, ℤ, MatchOption};
ghost use Rattle.first_num.specs.Faults.{ReadsAs};
ghost use Rattle.first_text.specs.Words.{words_in};
ghost use Rattle.first_script.specs.Words.{word};
ghost use Rattle.first_script.specs.Reads.{Answers};
ghost use Rattle.first_script.specs.Measures.{IsNone, IsScaledIn, IsHomeOf, IsMeasureFault, IsHomeFault, Measures, TakesHeight};

use crate::bounds::{
    HEIGHT_SCALE, MAX_HEIGHT, MAX_LATITUDE, MAX_LONGITUDE, MIN_HEIGHT, PLACE_SCALE,
};
use crate::draft::Draft;
use crate::entries::with_params;
use crate::fault::{ScriptFault, Stop};
use crate::form::Measure;
use crate::words::word;
use first_model::{Home, Params};
use first_num::read_scaled;

/// The number that a word writes at a scale.
fn scaled(word: &[u8], scale: u8) -> Option<i32>
    requires { scale ≤ 9 }
    ensures { MatchOption result (IsNone (ReadsAs word.now scale)) (λ n. ReadsAs word.now scale n × ((other : ℤ) → ReadsAs word.now scale other → other ≡ n)) }
{
    match read_scaled(word, scale) {
        Ok(number) => Some(number),
        Err(_) => None,
    }
}

/// The number of a range that a field's word writes at a scale. Fields are numbered from 1.
fn scaled_in(field: u8, scale: u8, low: i32, high: i32, line: &[u8]) -> Result<i32, Stop>
    requires scale { scale ≤ 9 }
    requires field { 0 < field }
    ensures { Answers result (IsScaledIn scale low high (word (field - 1) (words_in line.now))) (λ f. f ≡ ScriptFault.Number field) }
{
    let Some(number) = scaled(word(usize::from(field) - 1, line), scale) else {
        return Err(Stop::Fault(ScriptFault::Number(field)));
    };
    if number < low || high < number {
        return Err(Stop::Fault(ScriptFault::Number(field)));
    }
    Ok(number)
}

/// A parameter that is a height.
fn height(line: &[u8]) -> Result<i32, Stop>
    ensures { Answers result (TakesHeight (words_in line.now)) (λ f. f ≡ ScriptFault.Number 3) }
{
    scaled_in(3, HEIGHT_SCALE, 0, i32::MAX, line)
}

fn after_takeoff(draft: Draft, line: &[u8]) -> Result<Draft, Stop>
    ensures { Answers result (Measures draft Measure.Takeoff (words_in line.now)) (IsMeasureFault Measure.Takeoff (words_in line.now)) }
{
    let takeoff_min = height(line)?;
    let params = Params {
        takeoff_min,
        ..draft.params
    };
    Ok(with_params(draft, params))
}

fn after_ceiling(draft: Draft, line: &[u8]) -> Result<Draft, Stop>
    ensures { Answers result (Measures draft Measure.Ceiling (words_in line.now)) (IsMeasureFault Measure.Ceiling (words_in line.now)) }
{
    let max_alt = height(line)?;
    let params = Params {
        max_alt,
        ..draft.params
    };
    Ok(with_params(draft, params))
}

fn after_distance(draft: Draft, line: &[u8]) -> Result<Draft, Stop>
    ensures { Answers result (Measures draft Measure.Distance (words_in line.now)) (IsMeasureFault Measure.Distance (words_in line.now)) }
{
    let Some(distance) = scaled(word(2, line), HEIGHT_SCALE) else {
        return Err(Stop::Fault(ScriptFault::Number(3)));
    };
    if distance != 0 {
        return Err(Stop::Fault(ScriptFault::Distance));
    }
    let params = draft.params;
    Ok(with_params(draft, params))
}

/// The home of a line.
fn home(line: &[u8]) -> Result<Home, Stop>
    ensures { Answers result (IsHomeOf (words_in line.now)) (IsHomeFault (words_in line.now)) }
{
    let x = scaled_in(2, PLACE_SCALE, -MAX_LATITUDE, MAX_LATITUDE, line)?;
    let y = scaled_in(3, PLACE_SCALE, -MAX_LONGITUDE, MAX_LONGITUDE, line)?;
    let z = scaled_in(4, HEIGHT_SCALE, MIN_HEIGHT, MAX_HEIGHT, line)?;
    Ok(Home { x, y, z })
}

fn after_home(draft: Draft, line: &[u8]) -> Result<Draft, Stop>
    ensures { Answers result (Measures draft Measure.Home (words_in line.now)) (IsMeasureFault Measure.Home (words_in line.now)) }
{
    let home = home(line)?;
    Ok(Draft {
        home: Some(home),
        ..draft
    })
}

/// What the lines up to this one state, of which this has scaled numbers.
pub(crate) fn after_measure(draft: Draft, measure: Measure, line: &[u8]) -> Result<Draft, Stop>
    ensures { Answers result (Measures draft measure (words_in line.now)) (IsMeasureFault measure (words_in line.now)) }
{
    match measure {
        Measure::Takeoff => after_takeoff(draft, line),
        Measure::Ceiling => after_ceiling(draft, line),
        Measure::Distance => after_distance(draft, line),
        Measure::Home => after_home(draft, line),
    }
}
