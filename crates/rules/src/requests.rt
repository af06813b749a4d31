// Which telegrams act, and what each asks of the station, by its header alone.
ghost use Rattle.std.specs.Prelude.{◌≡◌, cond, not, eqb};
ghost use Rattle.points.specs.Points.{number_of};
ghost use Rattle.rules.specs.declared.request.Service.TheVariants.{Reject};
ghost use Rattle.rules.specs.Requests.{master_of, wants_none, global_form, to_station, acts, refilled, point_of, request_of, function_service, service_of};

use crate::bits::bit;
use crate::request::{Request, Service};
use points::{Point, look_up};
use state::control::Control;
use state::setup::Setup;
use telegram::Kind;

// The SSAP that a master's services come from.
const MASTER_SSAP: u8 = 62;

// The master that sent it: SA without its mark of an extension.
pub fn master_of(r: Request) -> u8
    ensures { result ≡ master_of r }
{
    r.sa % 128
}

// Functions 4 and 6: send without acknowledgement.
pub(crate) fn wants_none(r: Request) -> bool
    ensures { result ≡ wants_none r }
{
    let function = r.fc % 16;
    (function == 4) | (function == 6)
}

// The form of Global_Control: its function, an extension, the service points.
fn global_form(r: Request) -> bool
    ensures { result ≡ global_form r }
{
    wants_none(r) & (128 <= r.da) & (r.dsap == Point::GlobalControl as u8) & (r.ssap == MASTER_SSAP)
}

// To this station alone.
fn to_station(setup: Setup, r: Request) -> bool
    ensures { result ≡ to_station setup r }
{
    r.da % 128 == setup.address
}

// It acts: to the station, or to all with Global_Control, from a master's address, FC with bit 7 clear and bit 6 set.
pub fn acts(setup: Setup, r: Request) -> bool
    ensures { result ≡ acts setup r }
{
    (to_station(setup, r) | ((r.da % 128 == 127) & global_form(r)))
        & (master_of(r) <= 126)
        & !bit(r.fc, 7)
        & bit(r.fc, 6)
}

// The watchdog is refilled by each acting telegram of the owner to this address.
#[tactic(auto, unfolding(crate::specs::Requests::refilled))]
pub fn refilled(setup: Setup, mut control: Control, r: Request) -> Control
    ensures { result ≡ refilled setup control r }
{
    if acts(setup, r) & to_station(setup, r) & (control.owner == master_of(r)) {
        control.watchdog.remaining = control.watchdog.reload;
    }
    control
}

// The service, or RS where there is data: it expects none.
fn without_data(count: u8, service: Service) -> Service
    ensures { result ≡ cond (not (eqb count 0)) Reject service }
{
    if count != 0 {
        return Service::Reject;
    }
    service
}

// What is asked at a point. Global_Control comes by functions 4 and 6 alone.
fn asked_at(point: Point, r: Request) -> Service
    requires { number_of point ≡ r.dsap }
    ensures { result ≡ point_of r }
{
    match point {
        Point::SetPrm => Service::SetPrm,
        Point::ChkCfg => Service::ChkCfg,
        Point::SlaveDiag => without_data(r.count, Service::SlaveDiag),
        Point::GetCfg => without_data(r.count, Service::GetCfg),
        Point::ReadInputs => without_data(r.count, Service::ReadInputs),
        Point::ReadOutputs => without_data(r.count, Service::ReadOutputs),
        Point::GlobalControl => Service::Reject,
    }
}

// By the service point of destination.
fn point_of(r: Request) -> Service
    ensures { result ≡ point_of r }
{
    match look_up(r.dsap).found {
        Some(point) => asked_at(point, r),
        None => Service::Reject,
    }
}

// Functions 12 and 13: Data_Exchange without extension, else SSAP is 62 and the point decides.
fn request_of(r: Request) -> Service
    ensures { result ≡ request_of r }
{
    if r.da < 128 {
        return Service::DataExchange;
    }
    if r.ssap != MASTER_SSAP {
        return Service::Reject;
    }
    point_of(r)
}

// By the function of a telegram that acts; nothing else is answered.
pub fn function_service(r: Request) -> Service
    ensures { result ≡ function_service r }
{
    match r.fc % 16 {
        // a status request is an SD1
        9 if matches!(r.kind, Kind::Sd1) => Service::Status,
        // send with acknowledgement
        3 | 5 => Service::Reject,
        // send without
        4 | 6 if global_form(r) => Service::GlobalControl,
        // send and request
        12 | 13 => request_of(r),
        _ => Service::Nothing,
    }
}

// What a telegram asks of the station.
#[tactic(auto, unfolding(crate::specs::Requests::service_of))]
pub fn service_of(setup: Setup, r: Request) -> Service
    ensures { result ≡ service_of setup r }
{
    if acts(setup, r) {
        return function_service(r);
    }
    Service::Nothing
}
