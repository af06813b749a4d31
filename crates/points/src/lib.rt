// The service access points of document 01, and the lookup of one by its number (document 02, Req 03).
#![tactic(auto)]

ghost use Rattle.std.specs.Prelude.{◌≡◌};
ghost use Rattle.points.specs.Points.{number_of, table};
ghost use Rattle.points.specs.Lookup.{Promised};

use std::fmt;

// A service access point, by its service and the number that a telegram to it has as DSAP.
#[derive(Clone, Copy, PartialEq, Eq, Debug)]
pub enum Point {
    ReadInputs = 56,
    ReadOutputs = 57,
    GlobalControl = 58,
    GetCfg = 59,
    SlaveDiag = 60,
    SetPrm = 61,
    ChkCfg = 62,
}

// By the service's name in document 01.
impl fmt::Display for Point {
    fn fmt<W: fmt::Write>(&self, f: &mut fmt::Formatter<W>) -> fmt::Result {
        f.write_str(match self {
            Point::ReadInputs => "Read_Inputs",
            Point::ReadOutputs => "Read_Outputs",
            Point::GlobalControl => "Global_Control",
            Point::GetCfg => "Get_Cfg",
            Point::SlaveDiag => "Slave_Diag",
            Point::SetPrm => "Set_Prm",
            Point::ChkCfg => "Chk_Cfg",
        })
    }
}

// What a lookup found, and at how many entries it looked.
#[derive(Clone, Copy, PartialEq, Eq, Debug)]
pub struct Lookup {
    pub found: Option<Point>,
    pub looked_at: usize,
}

// Every point once. Slave_Diag stands first; docs/DECISIONS.md has the reason for the order.
const TABLE: [Point; 7] = [
    Point::SlaveDiag,
    Point::SetPrm,
    Point::ChkCfg,
    Point::ReadInputs,
    Point::ReadOutputs,
    Point::GetCfg,
    Point::GlobalControl,
];

// The number that a telegram to the point has as DSAP. A function of its own: its contract ties the discriminant to the definition.
fn number_of(point: Point) -> u8
    ensures { result ≡ number_of point }
{
    point as u8
}

// The entries are those of the definition, one by one: a promise about what is found would not notice one that is never looked at.
fn entries() -> [Point; 7]
    ensures { result ≡ table }
{
    TABLE
}

// The point that a DSAP names, and at how many entries it looked: it ends at the hit.
pub fn look_up(dsap: u8) -> Lookup
    ensures { Promised dsap result }
{
    let entries = entries();
    for (i, &point) in entries.iter().enumerate() {
        if number_of(point) == dsap {
            return Lookup {
                found: Some(point),
                looked_at: i + 1,
            };
        }
    }
    Lookup {
        found: None,
        looked_at: entries.len(),
    }
}
