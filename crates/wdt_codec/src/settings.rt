//! What a sender says of itself.
ghost use Rattle.std.specs.Prelude.{◌≡◌, ◌≤◌, ◌<◌, ◌^◌, length};
ghost use Rattle.wdt_codec.specs.Frames.{settings_at};
ghost use Rattle.wdt_codec.specs.Reading.{Answers};

use crate::frames::Settings;
use crate::numbers::number;
use crate::stop::Stop;
use wdt_units::{Conn, Lane, MAX_BLOCK};

#[tactic(auto, unfolding(crate::specs::Frames::settings_at))]
pub fn read_settings(bytes: &[u8]) -> Result<(Settings, &[u8]), Stop>
    ensures { Answers (λ x. (x.0, x.1.now)) result (settings_at bytes.now) }
{
    let (version, rest) = number(bytes, 2, 0, 65_535)?;
    let (session, rest) = number(rest, 8, 0, u64::MAX)?;
    let (lane, rest) = number(rest, 1, 0, 15)?;
    let (lanes, rest) = number(rest, 1, lane + 1, 16)?;
    let (conn, rest) = number(rest, 2, 1, 65_535)?;
    let (block, rest) = number(rest, 4, 1, MAX_BLOCK as u64)?;
    let (ask, rest) = number(rest, 1, 0, 1)?;
    let settings = Settings {
        version: version as u16,
        session,
        lane: Lane(lane as u8),
        lanes: lanes as u8,
        conn: Conn(conn as u16),
        block: block as u32,
        ask: ask == 1,
    };
    Ok((settings, rest))
}
