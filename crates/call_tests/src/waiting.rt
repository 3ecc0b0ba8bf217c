//! A pool of three tokens for which 300 clients wait, where a recording has 64 clients at most. What the pool does is
//! compared with a list of the requests that wait, of which filters choose. A pool of which nearly 2^63 entries were
//! made, as many as it has numbers for, can be had by no calls.

ghost use Rattle.std.specs.Prelude.{◌≡◌, ◌+◌, ◌<◌, ◌≤◌, IfSome, length, true};
ghost use Rattle.pool_sem.specs.Pools.{is_place};

use mms_types::{Edition, Identifier, Moment};
use pool_sem::PoolSem;
use std::alloc::Global;
use std::test::Fail;
use token_sem::{Ask, Expired, Grant, Taken};

/// How many clients there are: one for each token, and those that wait.
const CLIENTS: u32 = 303;

/// The moment of all requests, and of all that is given back.
const NOW: Moment = Moment(1_000);

/// Priorities of requests, one after the other: neither rising nor falling.
const PRIORITIES: [u8; 11] = [64, 3, 127, 30, 0, 64, 10, 3, 63, 127, 30];

/// For how long requests wait, in milliseconds: neither rising nor falling.
const DELAYS: [u32; 7] = [55, 12, 38, 12, 70, 25, 9];

/// A request of a client for a token, or for any.
#[derive(Clone, Copy)]
struct Request {
    number: u64,
    client: u32,
    invoke: u32,
    token: Option<u32>,
    priority: u8,
    delay: Option<u32>,
}

/// The request that comes as that one, counted from 1. Clients come in no order; three of eight name a token, and one
/// of three waits for as long as it takes.
fn asked_as(number: u32) -> Request
    requires { number < 1000 }
    ensures { is_place 3 result.token ≡ true }
{
    Request {
        number: u64::from(number),
        client: number * 100 % CLIENTS + 1,
        invoke: number % 100,
        token: match number % 8 {
            4 => Some(1),
            5 => Some(0),
            7 => Some(2),
            _ => None,
        },
        priority: PRIORITIES[(number % 11) as usize],
        delay: if number % 3 == 0 {
            None
        } else {
            Some(DELAYS[(number % 7) as usize])
        },
    }
}

/// What is asked of the pool.
fn ask_of(request: &Request) -> Ask
    ensures { result.token ≡ request.now.token }
{
    Ask {
        client: request.client,
        invoke: request.invoke,
        token: request.token,
        priority: request.priority,
        delay: request.delay,
        control: None,
        abort: None,
        keep: false,
        preempt: None,
    }
}

/// The name of these octets, where they are one.
fn named(alloc: Global, octets: &[u8]) -> Option<Identifier>
    ensures { IfSome result (λ name. name ≡ octets.now) }
{
    Identifier::read(alloc, octets, Edition::One).ok()
}

/// A pool of the tokens A, B and C.
fn three_tokens(alloc: Global) -> Option<PoolSem>
    ensures made { IfSome result (λ pool. pool.made ≡ 0) }
    ensures tokens { IfSome result (λ pool. length pool.tokens ≡ 3) }
{
    let a = named(alloc, b"A")?;
    let b = named(alloc, b"B")?;
    let c = named(alloc, b"C")?;
    PoolSem::new(alloc, vec![in alloc; a, b, c].ok()?).ok()
}

/// Asks a pool of three tokens for a token.
fn ask_for(pool: &mut PoolSem, request: &Request) -> Option<Taken>
    requires token { is_place 3 request.now.token ≡ true }
    requires tokens { length pool.old.tokens ≡ 3 }
    requires made { pool.old.made < 1000 }
    ensures tokens { length pool.new.tokens ≡ 3 }
    ensures made { pool.new.made ≤ pool.old.made + 1 }
{
    pool.take(&ask_of(request), NOW).ok()
}

/// Whether a request is answered as it should be: the first three have the tokens in their order, and the others wait.
fn is_entered(taken: Taken, request: &Request) -> bool {
    match taken {
        Taken::Granted(grant) => {
            request.number <= 3
                && grant.client == request.client
                && grant
                    .token
                    .is_some_and(|token| u64::from(token) + 1 == request.number)
        }
        Taken::Waits(number) => request.number > 3 && number == request.number,
        Taken::TimedOut => false,
    }
}

/// A pool, and the requests that wait for its tokens, in the order in which they came.
#[derive(Drop)]
struct Crowd {
    pool: PoolSem,
    waiting: Vec<Request>,
}

/// A pool for whose tokens all clients asked. None where a request isn't answered as it should be.
fn crowded(alloc: Global) -> Option<Crowd> {
    let mut pool = three_tokens(alloc)?;
    let mut waiting = Vec::new(alloc);
    for before in 0..CLIENTS {
        let request = asked_as(before + 1);
        let taken = ask_for(&mut pool, &request)?;
        if !is_entered(taken, &request) {
            return None;
        }
        if before >= 3 {
            waiting.push(request).ok()?;
        }
    }
    Some(Crowd { pool, waiting })
}

/// Of the requests that want the token, those of the least priority, and of these the first.
fn first_that_wants(token: u32, waiting: &[Request]) -> Option<Request> {
    for priority in 0..=127u8 {
        let found = waiting.iter().copied().find(|one| {
            one.priority == priority && (one.token.is_none() || one.token == Some(token))
        });
        if found.is_some() {
            return found;
        }
    }
    None
}

/// Of the requests that wait for some time, those that wait for the least, and of these the first.
fn first_that_ends(waiting: &[Request]) -> Option<Request> {
    for delay in 0..=127u32 {
        let found = waiting.iter().copied().find(|one| one.delay == Some(delay));
        if found.is_some() {
            return found;
        }
    }
    None
}

/// Whether the least deadline of the pool is that of the request.
fn is_next_to_end(pool: &PoolSem, request: Option<Request>) -> bool {
    match (pool.deadline(), request) {
        (None, None) => true,
        (Some(due), Some(one)) => {
            let delay = one.delay.unwrap_or(0);
            due.number == one.number && due.at.0 == NOW.0 + u64::from(delay) && due.kind == 1
        }
        _ => false,
    }
}

/// Whether the request is told that it has the token, or none is where none wants it.
fn is_granted(grant: Option<Grant>, request: Option<Request>, token: u32) -> bool {
    match (grant, request) {
        (None, None) => true,
        (Some(grant), Some(one)) => {
            let told = if one.token.is_some() {
                None
            } else {
                Some(token)
            };
            (grant.client, grant.invoke) == (one.client, one.invoke)
                && (grant.entry, grant.token) == (one.number, told)
        }
        _ => false,
    }
}

/// The tokens are given back, one by one and in no order, and each new owner gives back what it was granted; each is
/// granted to the request that a filter chooses. How many wait then, and whether the pool is in use. None where another
/// request was granted a token.
fn served_by_rank(alloc: Global) -> Option<(usize, bool)> {
    let Crowd {
        mut pool,
        mut waiting,
    } = crowded(alloc)?;
    let mut owners = [
        Some(asked_as(1).client),
        Some(asked_as(2).client),
        Some(asked_as(3).client),
    ];
    for turn in 0..3 * CLIENTS {
        if !is_next_to_end(&pool, first_that_ends(&waiting)) {
            return None;
        }
        let token = turn * 7 % 5 % 3;
        let Some(owner) = owners[token as usize] else {
            continue;
        };
        let grant = pool.relinquish(owner, Some(token), NOW).ok()?;
        let next = first_that_wants(token, &waiting);
        if !is_granted(grant, next, token) {
            return None;
        }
        owners[token as usize] = next.map(|one| one.client);
        if let Some(one) = next {
            waiting.retain(|other| other.number != one.number);
        }
    }
    Some((waiting.len(), pool.in_use()))
}

#[test]
fn of_300_that_wait_each_is_served_by_its_rank(rt: HostRuntime) {
    assert_eq!(rt; served_by_rank(rt.alloc()), Some((0, false)));
}

/// Lets the least deadline of the pool end: what came of it.
fn end_next(pool: &mut PoolSem) -> Option<Expired> {
    let due = pool.deadline()?;
    if due.at.is_dated() {
        Some(pool.expire(due.number, due.at))
    } else {
        None
    }
}

/// All waits that end are let end, one by one, each time the one that a filter chooses. How many requests wait then.
/// None where another one ended.
fn ended_by_moment(alloc: Global) -> Option<usize> {
    let Crowd {
        mut pool,
        mut waiting,
    } = crowded(alloc)?;
    for _ in 0..CLIENTS {
        let Some(one) = first_that_ends(&waiting) else {
            break;
        };
        if !is_next_to_end(&pool, Some(one)) {
            return None;
        }
        let expired = end_next(&mut pool)?;
        if !expired.waited || expired.client != one.client || expired.grant.is_some() {
            return None;
        }
        waiting.retain(|other| other.number != one.number);
    }
    if pool.deadline().is_some() {
        return None;
    }
    Some(waiting.len())
}

#[test]
fn of_300_that_wait_each_ends_at_its_moment(rt: HostRuntime) {
    assert_eq!(rt; ended_by_moment(rt.alloc()), Some(100));
}
