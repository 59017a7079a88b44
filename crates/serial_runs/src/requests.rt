// What is asked where there are only Serials and no file.
ghost use Rattle.std.specs.Prelude.{◌≡◌};
ghost use Rattle.serial_runs.specs.Requests.{as_serial, OnlySerials};

use model::{Call, Level, Request};

// The request as it is taken here: a stop is no call, and the line of a begin at another level than Serial has a fault.
pub fn as_serial(request: Request) -> Request
    ensures { result ≡ as_serial request }
{
    match request {
        Request::Whole(Call::Stop) | Request::Faulty(Call::Stop) | Request::Slotless(Call::Stop) =>
            Request::Unknown,
        Request::Whole(
            Call::Begin {
                slot,
                level: Some(level),
            },
        ) if level != Level::Serial => {
            Request::Faulty(Call::Begin {
                slot,
                level: Some(level),
            })
        }
        _ => request,
    }
}

// Only what was asked goes through, and no stop or begin at another level; every other call is taken as it is.
pub fn only_serials()
    ensures { OnlySerials }
{}
