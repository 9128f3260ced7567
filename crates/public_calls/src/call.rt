//! What a line of the input asks for.

use crate::fault::Fault;
use crate::security::Input;
use crate::{codecs, commands, program, security, streams, writers};
use eps_sec::Cipher;
use hex::FromHex;
use mac_pdu::Direction;
use std::alloc::Global;

/// The octets that a word writes in hexadecimal; `-` writes none.
fn octets(alloc: Global, word: &str) -> Result<Vec<u8>, Fault> {
    if word == "-" {
        return Ok(Vec::new(alloc));
    }
    Ok(hex::decode(alloc, word)?)
}

fn block(word: &str) -> Result<[u8; 16], Fault> {
    Ok(<[u8; 16] as FromHex>::from_hex(word)?)
}

fn number(word: &str) -> Result<u32, Fault> {
    Ok(word.parse()?)
}

/// Reads COUNT in hexadecimal, BEARER and DIRECTION.
fn input(count: &str, bearer: &str, direction: &str) -> Result<Input, Fault> {
    Ok(Input {
        count: u32::from_str_radix(count, 16)?,
        bearer: number(bearer)?,
        direction: number(direction)?,
    })
}

fn write(alloc: Global, words: &[&str]) -> Result<String, Fault> {
    let pdu = match *words {
        ["rlc", name] => writers::rlc(alloc, name)?,
        ["pdcp", name] => writers::pdcp(alloc, name)?,
        ["block", name, size] => writers::block(alloc, name, number(size)?)?,
        ["sdu", len, more] => writers::sdu(alloc, number(len)?, number(more)?)?,
        _ => return Err(Fault::Words),
    };
    let octets = pdu.as_slice();
    let front = &octets[..octets.len().min(16)];
    Ok(format!(in alloc; "{} octets, {}", octets.len(), hex::encode(alloc, front)?)?)
}

fn read(alloc: Global, words: &[&str]) -> Result<String, Fault> {
    match *words {
        ["umd", bits, pdu] => codecs::umd(alloc, number(bits)?, &octets(alloc, pdu)?),
        ["am", pdu] => codecs::am(alloc, &octets(alloc, pdu)?),
        ["user", bits, pdu] => codecs::user(alloc, number(bits)?, &octets(alloc, pdu)?),
        ["srb", pdu] => codecs::srb(alloc, &octets(alloc, pdu)?),
        ["ul", block] => codecs::mac(alloc, Direction::Up, &octets(alloc, block)?),
        ["dl", block] => codecs::mac(alloc, Direction::Down, &octets(alloc, block)?),
        _ => Err(Fault::Words),
    }
}

fn secure(alloc: Global, words: &[&str]) -> Result<String, Fault> {
    match *words {
        ["aes", key, text] => security::aes(alloc, block(key)?, block(text)?),
        ["cmac", key, message] => security::cmac(alloc, block(key)?, &octets(alloc, message)?),
        [name, key, count, bearer, direction, text] => {
            let (key, input) = (block(key)?, input(count, bearer, direction)?);
            let text = octets(alloc, text)?;
            match name {
                "eea0" => security::eea(alloc, Cipher::Eea0, key, input, text),
                "eea2" => security::eea(alloc, Cipher::Eea2, key, input, text),
                "eia2" => security::eia2(alloc, key, input, &text),
                _ => Err(Fault::Words),
            }
        }
        _ => Err(Fault::Words),
    }
}

fn stream(alloc: Global, words: &[&str]) -> Result<String, Fault> {
    match *words {
        ["chunks", chunk, text] => {
            streams::sure_lines(alloc, number(chunk)?, &octets(alloc, text)?)
        }
        ["fails", read, text] => {
            streams::failing_lines(alloc, number(read)?, &octets(alloc, text)?)
        }
        ["stream", text] => streams::stream_lines(alloc, &octets(alloc, text)?),
        ["ahead", piece, text] => streams::ahead(alloc, number(piece)?, &octets(alloc, text)?),
        ["gather", put, ref pieces @ ..] => streams::gather(alloc, number(put)?, pieces),
        ["puts", pieces] => streams::puts(alloc, pieces),
        ["script", script, chunk] => commands::script(alloc, number(script)?, number(chunk)?),
        ["script", script] => commands::script_lines(alloc, number(script)?),
        _ => Err(Fault::Words),
    }
}

/// Makes the call that a line names, and tells what comes out.
pub fn answer(alloc: Global, line: &str) -> Result<String, Fault> {
    let words: Vec<&str> = line.split_whitespace().collect(alloc)?;
    match *words.as_slice() {
        ["write", ref words @ ..] => write(alloc, words),
        ["read", ref words @ ..] => read(alloc, words),
        ["command", ..] => commands::command(alloc, line),
        ["run" | "decode" | "check", ..] => program::played(alloc, line),
        ["session", chunk] => program::session(alloc, number(chunk)?),
        ["aes" | "cmac" | "eea0" | "eea2" | "eia2", ..] => secure(alloc, &words),
        _ => stream(alloc, &words),
    }
}
