// The logins, each written in one call, from the buffer's start and with no state.
#![tactic(auto)]

ghost use Rattle.std.specs.Prelude.{◌≡◌, ◌+◌, ◌≤◌, length, leb, eqb};
ghost use Rattle.std.proofs.Math.Option.{some, none};
ghost use Rattle.format.specs.declared.Fault.TheVariants.{Version};
ghost use Rattle.format.specs.Result.{pick};
ghost use Rattle.format.specs.Format.{fine};
ghost use Rattle.format.specs.Value.{most_bytes};
ghost use Rattle.format.specs.Message.{a_login_request, a_login_response, message_bytes, hash_size, server};
ghost use Rattle.put.specs.Put.{put};
ghost use Rattle.steps.specs.Plans.{answer_of};
ghost use Rattle.steps.specs.Steps.{says};
ghost use Rattle.steps.specs.Logins.{hash_fault, request_fault, response_fault, written_request, written_response, login_plan, login_request, login_response};
ghost use Rattle.write.specs.Shown.{shown_answer, Told};
ghost use Rattle.write.specs.Shared.{verdict_of};
ghost use Rattle.login.specs.Parts.{welcome, server_of, hash_part};

use format::{Fault, Refusal};

// Writes a login request. In version 0 the hash version, here `hashing`, is ignored.
pub fn login_request(
    out: &mut [u8],
    version: u8,
    hashing: u8,
    service: &[u8],
    user: &[u8],
    hash: &[u8],
) -> Result<usize, Refusal>
    ensures { Told (login_request version hashing service.now user.now hash.now out.old) result out.new }
{
    let n = ask_request(version, hashing, service, user, hash, out.len())?;
    let front = put::number_at(out, 0, (n - 4) as u64, 4);
    let edition = put::number_at(out, front, version as u64, 1);
    let names = hash_version_at(out, edition, version, hashing);
    let middle = put::text_at(out, names, Some(service));
    let last = put::text_at(out, middle, Some(user));
    put::bytes_at(out, last, hash);
    Ok(n)
}

// Writes a login response, its numbers without a sign. With a result other than 0 all that follows it is ignored.
pub fn login_response(
    out: &mut [u8],
    version: u8,
    res: u8,
    host: u32,
    connection: u64,
    start: u64,
    leader: u32,
    build: &[u8],
) -> Result<usize, Refusal>
    ensures { Told (login_response version res (welcome host connection start leader build.now) out.old) result out.new }
{
    let n = ask_response(version, res, build, out.len())?;
    let front = put::number_at(out, 0, (n - 4) as u64, 4);
    let edition = put::number_at(out, front, version as u64, 1);
    let rest = put::number_at(out, edition, res as u64, 1);
    if res != 0 {
        return Ok(n);
    }
    server_at(out, rest, host, connection, start, leader, build);
    Ok(n)
}

// Writes the hash version, which version 0 has not, and says where it ends.
fn hash_version_at(out: &mut [u8], at: usize, version: u8, hashing: u8) -> usize
    requires { at + length (hash_part version hashing) ≤ length out.old }
    ensures { (result ≡ at + length (hash_part version hashing)) × (out.new ≡ put out.old at (hash_part version hashing)) }
{
    if version != 1 {
        return at;
    }
    put::number_at(out, at, hashing as u64, 1)
}

// Writes what follows a result of 0.
fn server_at(
    out: &mut [u8],
    at: usize,
    host: u32,
    connection: u64,
    start: u64,
    leader: u32,
    build: &[u8],
)
    requires { at + (24 + (4 + length build.now)) ≤ length out.old }
    ensures { out.new ≡ put out.old at (server.bytes (server_of (welcome host connection start leader build.now))) }
{
    let second = put::number_at(out, at, host as u64, 4);
    let third = put::number_at(out, second, connection, 8);
    let fourth = put::number_at(out, third, start, 8);
    let last = put::number_at(out, fourth, leader as u64, 4);
    put::text_at(out, last, Some(build));
}

// What a login is answered, in a buffer of so many bytes. Of a response's numbers it doesn't depend.
fn ask_request(
    version: u8,
    hashing: u8,
    service: &[u8],
    user: &[u8],
    hash: &[u8],
    size: usize,
) -> Result<usize, Refusal>
    ensures { result ≡ shown_answer (answer_of (login_plan (request_fault version hashing service.now user.now hash.now) (message_bytes 1 (says version (a_login_request (written_request version hashing service.now user.now hash.now))))) size) }
{
    request_fault(version, hashing, service, user, hash)?;
    let bytes = request_size(version, service, user, hash);
    write::judge(true, Ok(()), true, 0, bytes, size)
}

fn ask_response(version: u8, res: u8, build: &[u8], size: usize) -> Result<usize, Refusal>
    ensures { result ≡ shown_answer (answer_of (login_plan (response_fault version res (welcome 0 0 0 0 build.now)) (message_bytes 2 (says version (a_login_response (written_response res (welcome 0 0 0 0 build.now)))))) size) }
{
    let edition = write::test(version <= 1, Fault::Version, 0);
    if res != 0 {
        return write::judge(true, edition, true, 0, 6, size);
    }
    let fault = write::also(edition, write::text_fault(0, build));
    write::judge(true, fault, true, 0, 34 + build.len(), size)
}

// What is wrong with the arguments of a request, in wire order.
fn request_fault(
    version: u8,
    hashing: u8,
    service: &[u8],
    user: &[u8],
    hash: &[u8],
) -> Result<(), Refusal>
    ensures { verdict_of result ≡ request_fault version hashing service.now user.now hash.now }
{
    let edition = write::test(version <= 1, Fault::Version, 0);
    let second = hash_version_fault(version, hashing);
    let third = write::text_fault(0, service);
    let fourth = write::text_fault(0, user);
    let fifth = hash_fault(hash_size(version, hashing), hash);
    write::also(
        edition,
        write::also(second, write::also(third, write::also(fourth, fifth))),
    )
}

fn hash_version_fault(version: u8, hashing: u8) -> Result<(), Refusal>
    ensures { verdict_of result ≡ pick (eqb version 1) (Rattle.steps.specs.Plans.test (leb hashing 1) Version 0) fine }
{
    if version != 1 {
        return Ok(());
    }
    write::test(hashing <= 1, Fault::Version, 0)
}

// How many bytes the hash must have.
fn hash_size(version: u8, hashing: u8) -> usize
    ensures { result ≡ hash_size (pick (eqb version 1) (some hashing) none) }
{
    if version != 1 {
        return format::SHORT_HASH;
    }
    if hashing == 1 {
        format::LONG_HASH
    } else {
        format::SHORT_HASH
    }
}

fn hash_fault(n: usize, hash: &[u8]) -> Result<(), Refusal>
    ensures { verdict_of result ≡ hash_fault n hash.now }
{
    let short = write::test(n <= hash.len(), Fault::Short, 0);
    let long = write::test(hash.len() <= n, Fault::Extra, 0);
    write::also(short, long)
}

// How many bytes a request has, with its length.
fn request_size(version: u8, service: &[u8], user: &[u8], hash: &[u8]) -> usize
    requires { (length service.now ≤ most_bytes) × (length user.now ≤ most_bytes) × (length hash.now ≤ 32) }
    ensures { result ≡ 5 + (pick (eqb version 1) 1 0 + (4 + length service.now + (4 + length user.now + length hash.now))) }
{
    let rest = 4 + service.len() + (4 + user.len() + hash.len());
    if version == 1 { 6 + rest } else { 5 + rest }
}
