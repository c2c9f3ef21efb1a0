// The arguments of the program `plan`, as a person types them. A bad one is complained about on standard error.
#![tactic(auto)]

ghost use Rattle.std.specs.Prelude.{IfSome, IsSome, IsTrue, ◌↔◌};

use model::{AVERAGE, CCA, FCA, MEDIAN, MIDPOINT, Settings, TRIMMED_MEAN, TRIMMED_MIDPOINT};
use std::env::{Env, FillError};
use std::io;
use std::io::Write;

// How many rounds a plan is to have, or the window that it is to reach.
#[derive(Clone, Copy)]
pub enum Aim {
    Rounds(u32),
    Target(u32),
}

// What a plan is asked for. Where more cabinets or faults are typed than settings hold, these have the highest number
// that they hold, which the planner refuses likewise.
#[derive(Clone, Copy)]
pub struct Request {
    pub settings: Settings,
    pub accuracy: u32,
    pub aim: Aim,
    // How many cabinets are bad, where it is said.
    pub bad: Option<u32>,
}

// What an interval is asked for: the window, the precision and the drift.
#[derive(Clone, Copy)]
pub struct Spacing {
    pub window: u32,
    pub precision: u32,
    pub drift: u32,
}

fn rule_named(word: &[u8]) -> Option<u8> {
    match word {
        b"fca" => Some(FCA),
        b"cca" => Some(CCA),
        b"trimmed-midpoint" => Some(TRIMMED_MIDPOINT),
        b"trimmed-mean" => Some(TRIMMED_MEAN),
        _ => None,
    }
}

fn estimator_named(word: &[u8]) -> Option<u8> {
    match word {
        b"average" => Some(AVERAGE),
        b"median" => Some(MEDIAN),
        b"midpoint" => Some(MIDPOINT),
        _ => None,
    }
}

// Whether a target is asked for, and not a count of rounds.
fn target_named(word: &[u8]) -> Option<bool> {
    match word {
        b"rounds" => Some(false),
        b"target" => Some(true),
        _ => None,
    }
}

// A number of cabinets in a byte. Those above 255 are refused as 255 is.
fn in_a_byte(value: u32) -> u8 {
    value.min(255) as u8
}

// The arguments, and where a bad one is complained about.
#[derive(Drop)]
struct Reader<'a, E, W> {
    env: &'a E,
    errors: &'a mut W,
}

impl<E: Env, W: Write> Reader<'_, E, W> {
    // What was given; of an argument that is longer than the buffer the first bytes.
    fn show_given(&mut self, at: usize) -> io::Result<()> {
        // Stays: a fixed array, lent as far as it is used, since the project has no heap (a).
        let mut given = [0u8; 60];
        match self.env.arg(at, &mut given) {
            Ok(size) => self.errors.write_all(&given[..size]),
            Err(FillError::TooLong) => {
                self.errors.write_all(&given)?;
                self.errors.write_all(b"..")
            }
            Err(FillError::NotPresent) => Ok(()),
        }
    }

    // A bad argument: its name, what was given, what is wanted.
    fn complain(&mut self, at: usize, name: &str, wanted: &str) -> io::Result<()> {
        write!(self.errors, "plan: {name} is '")?;
        self.show_given(at)?;
        writeln!(self.errors, "': {wanted}")
    }

    // What an argument says; none is complained about.
    fn read<T, F: FnOnce(&[u8]) -> Option<T>>(
        &mut self,
        at: usize,
        name: &str,
        wanted: &str,
        parse: F,
    ) -> Option<T>
        requires { F.IsAlwaysCallable parse }
    {
        // Stays: a fixed array, lent as far as it is used, since the project has no heap (a).
        let mut buffer = [0u8; 4096];
        let value = console::argument(self.env, at, &mut buffer)
            .ok()
            .and_then(parse);
        if value.is_none() {
            let _ = self.complain(at, name, wanted);
        }
        value
    }

    fn number(&mut self, at: usize, name: &str) -> Option<u32> {
        self.read(
            at,
            name,
            "a whole number from 0 to 4294967295 is wanted",
            number_parser::number_in,
        )
    }

    // The settings, with N as it was read.
    fn settings(&mut self, n: Option<u32>) -> Option<Settings> {
        let m = self.number(2, "M");
        let rule = self.read(
            3,
            "RULE",
            "fca or cca is wanted (no plan has trimmed-midpoint or trimmed-mean)",
            rule_named,
        );
        let estimator = self.read(
            4,
            "ESTIMATOR",
            "average, median or midpoint is wanted",
            estimator_named,
        );
        let window = self.number(5, "WINDOW");
        Some(Settings {
            n: in_a_byte(n?),
            m: in_a_byte(m?),
            rule: rule?,
            estimator: estimator?,
            window: window?,
        })
    }

    fn aim(&mut self) -> Option<Aim> {
        let is_target = self.read(7, "argument 7", "rounds or target is wanted", target_named);
        let last = self.number(8, "COUNT or TICKS");
        if is_target? {
            Some(Aim::Target(last?))
        } else {
            Some(Aim::Rounds(last?))
        }
    }

    // How many cabinets are bad. More than N are complained about.
    fn bad(&mut self, n: Option<u32>) -> Option<u32> {
        let bad = self.number(9, "T")?;
        if n.is_some_and(|n| n < bad) {
            let _ = self.complain(9, "T", "a number of at most N is wanted");
            return None;
        }
        Some(bad)
    }
}

// What a plan is asked for, and for how many bad cabinets where it is limited. Every argument is read before one that
// was complained about ends the reading.
pub fn read_request<E: Env, W: Write>(env: &E, errors: &mut W, is_limited: bool) -> Option<Request>
    ensures { IfSome result (λ request. IsTrue is_limited ↔ IsSome request.bad) }
{
    let mut reader = Reader { env, errors };
    let n = reader.number(1, "N");
    let settings = reader.settings(n);
    let accuracy = reader.number(6, "ACCURACY");
    let aim = reader.aim();
    let bad = if is_limited {
        Some(reader.bad(n)?)
    } else {
        None
    };
    Some(Request {
        settings: settings?,
        accuracy: accuracy?,
        aim: aim?,
        bad,
    })
}

// The three arguments behind the word `interval`.
pub fn read_spacing<E: Env, W: Write>(env: &E, errors: &mut W) -> Option<Spacing> {
    let mut reader = Reader { env, errors };
    let window = reader.number(2, "WINDOW");
    let precision = reader.number(3, "PRECISION");
    let drift = reader.number(4, "DRIFT");
    Some(Spacing {
        window: window?,
        precision: precision?,
        drift: drift?,
    })
}
