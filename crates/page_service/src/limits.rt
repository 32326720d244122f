//! How much a request may have.

ghost use Rattle.std.specs.Prelude.{◌≡◌, ◌*◌};

use http_server::Config;
use http1::Limits;

/// The most bytes of a body: 4 MiB. A longer one, announced or in chunks, is answered with 413.
pub const MAX_BODY_LEN: usize = 4 * 1024 * 1024;

/// The most bytes of a head: 16 KiB. A longer one is answered with 414 or 431.
pub const MAX_HEAD_LEN: usize = 16 * 1024;

/// While more bytes of answers than these wait to be sent over a connection, no request of it is read: 64 KiB.
pub const MAX_WAITING: usize = 64 * 1024;

/// The limits of each connection.
pub fn config() -> Config
    ensures body { result.max_body_len ≡ 4 * 1024 * 1024 }
    ensures head { result.limits.max_head_len ≡ 16 * 1024 }
    ensures waiting { result.max_pending ≡ 64 * 1024 }
{
    Config {
        limits: Limits {
            max_head_len: MAX_HEAD_LEN,
            ..Limits::default()
        },
        max_body_len: MAX_BODY_LEN,
        max_pending: MAX_WAITING,
        ..Config::default()
    }
}
