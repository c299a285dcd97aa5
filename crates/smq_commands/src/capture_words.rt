//! What the words of captures say.
use clap::Error;
use smq_capture::{Link, Options};
use smq_packets::Address;
use smq_parts::By;
use smq_words::{Captures, bad_words};
use std::alloc::{AllocError, Global};
use std::net::IpAddr;

/// The most ms between ticks.
const MOST_EVERY: u64 = 1_000_000_000;

/// What the words of captures ask for, where a script of them that is longer than a report takes is told or not.
pub(crate) fn options_of(
    alloc: Global,
    captures: &Captures,
    tells_long_scripts: bool,
) -> Result<Options, Error> {
    if captures.links.is_empty() {
        return Err(bad_words(
            alloc,
            "--capture wants --link, which names the centre's port",
        )?);
    }
    if captures.every.is_none() && !captures.questions.is_empty() {
        return Err(bad_words(alloc, "--ask wants --every, which says how often")?);
    }
    Ok(Options {
        links: links_of(alloc, captures.links.as_slice())?,
        first_session: first_session_of(alloc, &captures.first_session)?,
        is_strict: captures.is_strict,
        every: every_of(alloc, &captures.every)?,
        tells_long_scripts,
    })
}

/// What the rows of captures are split by, where they are.
pub(crate) fn by_of(alloc: Global, captures: &Captures) -> Result<Option<By>, Error> {
    if captures.into.is_none() {
        return match &captures.by {
            None => Ok(None),
            Some(_) => Err(bad_words(
                alloc,
                "--by wants --into, which names the folder of the scripts",
            )?),
        };
    }
    if captures.every.is_some() {
        return Err(bad_words(
            alloc,
            "--into takes no --every: a row of the clock is of no link and no period",
        )?);
    }
    let Some(word) = &captures.by else {
        return Ok(Some(By::LinkAndDay));
    };
    match word.as_str() {
        "link" => Ok(Some(By::Link)),
        "day" => Ok(Some(By::Day)),
        "hour" => Ok(Some(By::Hour)),
        "link,day" => Ok(Some(By::LinkAndDay)),
        "link,hour" => Ok(Some(By::LinkAndHour)),
        text => {
            let message = format!(in alloc;
                "'{text}' is none of link, day, hour, link,day and link,hour"
            )?;
            Err(bad_words(alloc, message.as_str())?)
        }
    }
}

/// Whether words of captures stand where no capture is named.
pub(crate) fn has_words(captures: &Captures) -> bool {
    !captures.links.is_empty()
        || !captures.questions.is_empty()
        || captures.first_session.is_some()
        || captures.index.is_some()
        || captures.losses.is_some()
        || captures.every.is_some()
        || captures.is_strict
}

/// The links that words name.
fn links_of(alloc: Global, words: &[String]) -> Result<Vec<Link>, Error> {
    let mut links = Vec::new(alloc);
    for word in words {
        let text = word.as_str();
        let Some(link) = read_link(text) else {
            let message = format!(in alloc; "'{text}' is no [HOST:]PORT=LINK, as 2775=1")?;
            return Err(bad_words(alloc, message.as_str())?);
        };
        if names_twice(links.as_slice(), link) {
            return Err(bad_words(alloc, "--link names a port twice")?);
        }
        links.push(link).map_err(AllocError::from)?;
    }
    Ok(links)
}

/// The number of the first session, 1 where none is given.
fn first_session_of(alloc: Global, word: &Option<String>) -> Result<u64, Error> {
    let Some(word) = word else {
        return Ok(1);
    };
    let text = word.as_str();
    match text.parse::<u64>() {
        Ok(number) => Ok(number),
        Err(_) => {
            let message = format!(in alloc; "'{text}' is no number of a session")?;
            Err(bad_words(alloc, message.as_str())?)
        }
    }
}

/// The ms of a number of seconds.
fn every_of(alloc: Global, word: &Option<String>) -> Result<Option<u64>, Error> {
    let Some(word) = word else {
        return Ok(None);
    };
    let text = word.as_str();
    match milliseconds_of(text) {
        Some(number) => Ok(Some(number)),
        None => {
            let message = format!(in alloc;
                "'{text}' is no number of seconds from 0.001 to 1000000, as 10 or 0.5"
            )?;
            Err(bad_words(alloc, message.as_str())?)
        }
    }
}

/// The ms of a number of seconds with up to three places behind the point, if it is such a one above 0.
fn milliseconds_of(text: &str) -> Option<u64> {
    let (whole, part) = match text.split_once(".") {
        None => (text, ""),
        Some((_, "")) => return None,
        Some(parts) => parts,
    };
    if whole.is_empty() || part.len() > 3 {
        return None;
    }
    let mut number: u64 = 0;
    for octet in whole.as_bytes().iter().chain(part.as_bytes()) {
        if !octet.is_ascii_digit() || number > MOST_EVERY {
            return None;
        }
        number = number
            .saturating_mul(10)
            .saturating_add(u64::from(octet.wrapping_sub(b'0')));
    }
    for _ in part.len()..3 {
        number = number.saturating_mul(10);
    }
    if 0 < number && number <= MOST_EVERY {
        Some(number)
    } else {
        None
    }
}

/// Whether the port of a link is that of another one.
fn names_twice(links: &[Link], link: Link) -> bool {
    for it in links {
        if it.port == link.port && it.address == link.address {
            return true;
        }
    }
    false
}

/// A port of a centre and its link, as [HOST:]PORT=LINK.
fn read_link(word: &str) -> Option<Link> {
    let (end, link) = word.rsplit_once("=")?;
    let link = link.parse::<u32>().ok()?;
    match end.rsplit_once(":") {
        None => Some(Link {
            address: None,
            port: end.parse::<u16>().ok()?,
            link,
        }),
        Some((host, port)) => {
            let host = host.trim_start_matches('[').trim_end_matches(']');
            Some(Link {
                address: Some(address_of(host.parse::<IpAddr>().ok()?)),
                port: port.parse::<u16>().ok()?,
                link,
            })
        }
    }
}

/// An address as packets have it.
fn address_of(address: IpAddr) -> Address {
    match address {
        IpAddr::V4(it) => Address::V4(u32::from_be_bytes(it.octets())),
        IpAddr::V6(it) => {
            let [a, b, c, d, e, f, g, h, i, j, k, l, m, n, o, p] = it.octets();
            Address::V6(
                u64::from_be_bytes([a, b, c, d, e, f, g, h]),
                u64::from_be_bytes([i, j, k, l, m, n, o, p]),
            )
        }
    }
}
