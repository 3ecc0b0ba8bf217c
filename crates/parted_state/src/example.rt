//! An example of a device of tables and clients, with two areas: a shelf with pieces, and a tool that one client has at
//! a time. A client asks for the tool and waits where another has it; one that hands it over tells the client that
//! waited for it, which is another client's part. Pieces are fetched from the shelf, and where few are left, by the
//! client alone that has the tool; that client alone puts pieces on it. Whether a client has the tool is all that the
//! shelf needs to know of it, and it is told it as a fact.

ghost use Rattle.std.specs.Prelude.{◌≡◌, ◌≢◌, ◌+◌, ◌<◌, ◌≤◌, ◌∷◌, [], ℕ, List, Option, None, OnOk, OnErr, length, slice_get};
ghost use Rattle.std.specs.Option.{option_map};
ghost use Rattle.part_table.specs.Held.{held_at, IsHandOf};
ghost use Rattle.parted_state.specs.Lifted.{told_all, with_tables};
ghost use Rattle.parted_state.specs.Rows.{with_room, with_word};
ghost use Rattle.parted_state.specs.Served.{change};
ghost use Rattle.parted_state.specs.Shop.{State, IsRow, after, are_few, clients_among, fetch_word, fetched, give_word, given, heir, need, on_row, parts_after, parts_of, roomy_in, serve, serve_shelf, serve_tool, shelf_facts, shelf_in, shop, step, stock_word, stocked, take_word, taken, told_heir, tool_in};

use part_table::{Hand, Object};
use std::alloc::AllocError;
use std::marker::Model;

/// What a client is told.
#[derive(Clone, Copy)]
pub enum Word {
    /// It has the tool.
    Yours,
    /// It waits for the tool.
    Wait,
    /// What it asked for is done.
    Done,
    /// It is refused.
    No,
}

/// What a client asks of the tool.
#[derive(Clone, Copy)]
pub enum ToolAsk {
    /// To have it.
    Take,
    /// To hand it over.
    Give,
}

/// What a client asks of the shelf.
#[derive(Clone, Copy)]
pub enum ShelfAsk {
    /// So many pieces.
    Fetch(u32),
    /// To have so many pieces more.
    Stock(u32),
}

/// What a client asks for, by the area that serves it.
#[derive(Clone, Copy)]
pub enum Ask {
    /// Of the tool.
    Tool(ToolAsk),
    /// Of the shelf.
    Shelf(ShelfAsk),
}

/// A client asks for something. Clients count from 1.
#[derive(Clone, Copy)]
pub struct Asked {
    pub client: u32,
    pub ask: Ask,
}

/// Who has the tool and who waits for it; 0 is nobody.
#[derive(Clone, Copy)]
pub struct Tool {
    pub owner: u32,
    pub next: u32,
}

/// How many pieces there are.
#[derive(Clone, Copy)]
pub struct Shelf {
    pub pieces: u32,
}

/// The tables, one of each area.
#[derive(Clone, Copy)]
pub struct Tables {
    pub shelf: Shelf,
    pub tool: Tool,
}

/// What an area is told of tables that aren't its own: whether the client that asks has the tool.
#[derive(Clone, Copy)]
pub struct Facts {
    pub has_tool: bool,
}

/// What a client was told, in order, with room for more words that is made before it is used. Contracts see the words,
/// and for how many more there is room.
#[derive(Drop)]
pub struct Row {
    words: Vec<Word>,
    room: usize,
}

impl Model for Row {
    ghost use Rattle.std.specs.Prelude.{◌+◌, ◌≤◌, vec_len, vec_capacity};
    ghost use Rattle.parted_state.specs.Rows.{Roomy};

    ghost Value = { Roomy };

    ghost view = { λ row. record { words = row.words.items; room = row.room } };

    ghost invariant = { λ row. vec_len row.words + row.room ≤ vec_capacity row.words };
}

impl Row {
    /// Makes room for so many words, in place of the room that there was.
    fn reserve(&mut self, words: usize) -> Result<(), AllocError>
        ensures made { OnOk result (self.new ≡ with_room words self.old) }
        ensures kept { OnErr result (self.new ≡ self.old) }
    {
        self.words.reserve(words)?;
        self.room = words;
        Ok(())
    }

    /// Gives up the room that is left.
    fn release(&mut self)
        ensures { self.new ≡ with_room 0 self.old }
    {
        self.room = 0;
    }

    /// Appends a word. It uses the room for one.
    fn tell(&mut self, word: Word)
        requires room { 0 < self.old.room }
        ensures { self.new ≡ with_word word self.old }
    {
        self.words.push_reserved(word);
        self.room -= 1;
    }
}

/// A part. With n clients there are n + 2 of them.
#[derive(Drop)]
pub enum ShopPart {
    /// Part 0.
    Shelf(Shelf),
    /// Part c, of client c.
    Client(Row),
    /// Part n + 1.
    Tool(Tool),
}

/// The device, cut into its parts.
pub struct Shop;

impl Object for Shop {
    ghost use Rattle.std.specs.Prelude.{◌≡◌, ◌≤◌, []};
    ghost use Rattle.parted_state.specs.Shop.{after, need, parts_after};
    ghost use Rattle.parted_state.specs.ShopLaws.{after_holds_the_same, after_is_laid_over};

    type Part = ShopPart;

    type Event = Asked;

    ghost step = { parts_after };

    ghost suffices = { λ event hand. need event hand ≡ [] };

    ghost after = { after };

    ghost may_make = { λ caller event. (event.client ≡ caller) × (1 ≤ caller) };

    ghost same_parts = { λ event hand parts of enough. after_holds_the_same event hand };

    ghost stepped = { λ event hand parts of enough. after_is_laid_over event hand parts of enough };
}

/// The laws of the example: the step on the device is the step on its parts, and every part that is not held stays as
/// it is where nothing is needed that is not held.
pub fn a_step_is_of_the_held_parts()
    ensures parts { (s : State) (event : Asked)
        → parts_of (step s event) ≡ parts_after event (parts_of s) }
    ensures others { (s : State) (hand : List (Option ShopPart)) (event : Asked) (place : ℕ)
        → IsHandOf hand (parts_of s) → need event hand ≡ [] → held_at hand place ≡ None
        → slice_get (parts_of (step s event)) place ≡ slice_get (parts_of s) place }
{}

impl Tool {
    /// The one that asks takes the tool, or waits for it: what it is told.
    fn take(&mut self, client: u32) -> Word
        ensures tool { self.new ≡ taken client self.old }
        ensures told { result ≡ take_word self.old }
    {
        if self.owner == 0 {
            self.owner = client;
            Word::Yours
        } else if self.next == 0 {
            self.next = client;
            Word::Wait
        } else {
            Word::No
        }
    }

    /// It hands the tool over to the one that waits: what it is told, and the one that has the tool then, or 0.
    fn give(&mut self, client: u32) -> (Word, u32)
        ensures tool { self.new ≡ given client self.old }
        ensures told { result.0 ≡ give_word client self.old }
        ensures heir { result.1 ≡ heir client self.old }
    {
        if self.owner != client {
            return (Word::No, 0);
        }
        let heir = self.next;
        *self = Tool {
            owner: heir,
            next: 0,
        };
        (Word::Done, heir)
    }

    /// Serves the one that asks: what it is told, and the client that is told that it has the tool, or 0.
    fn serve(&mut self, client: u32, ask: ToolAsk) -> (Word, u32)
        ensures tool { self.new ≡ (serve_tool self.old client ask).tables }
        ensures told { (client, result.0) ∷ told_heir result.1
            ≡ (serve_tool self.old client ask).told }
    {
        match ask {
            ToolAsk::Take => (self.take(client), 0),
            ToolAsk::Give => self.give(client),
        }
    }
}

impl Shelf {
    /// Whether few pieces are left.
    fn are_few(&self) -> bool
        ensures { result ≡ are_few self.now }
    {
        self.pieces < 10
    }

    /// Pieces are fetched: what the one that asks is told.
    fn fetch(&mut self, pieces: u32, facts: Facts) -> Word
        ensures shelf { self.new ≡ fetched pieces facts self.old }
        ensures told { result ≡ fetch_word pieces facts self.old }
    {
        let may = (!self.are_few() || facts.has_tool) && pieces <= self.pieces;
        if !may {
            return Word::No;
        }
        self.pieces -= pieces;
        Word::Done
    }

    /// Pieces are put on the shelf: what the one that asks is told.
    fn stock(&mut self, pieces: u32, facts: Facts) -> Word
        ensures shelf { self.new ≡ stocked pieces facts self.old }
        ensures told { result ≡ stock_word pieces facts self.old }
    {
        let may = facts.has_tool && self.pieces <= 1000 && pieces <= 1000 - self.pieces;
        if !may {
            return Word::No;
        }
        self.pieces += pieces;
        Word::Done
    }

    /// Serves the one that asks: what it is told.
    fn serve(&mut self, _client: u32, ask: ShelfAsk, facts: Facts) -> Word
        ensures shelf { self.new ≡ (serve_shelf facts self.old _client ask).tables }
        ensures told { (_client, result) ∷ [] ≡ (serve_shelf facts self.old _client ask).told }
    {
        match ask {
            ShelfAsk::Fetch(pieces) => self.fetch(pieces, facts),
            ShelfAsk::Stock(pieces) => self.stock(pieces, facts),
        }
    }
}

impl Tables {
    /// What the shelf is told of the tool.
    fn shelf_facts(&self, client: u32, ask: ShelfAsk) -> Facts
        ensures { result ≡ shelf_facts client ask self.now }
    {
        match ask {
            ShelfAsk::Fetch(_) => Facts {
                has_tool: self.shelf.are_few() && self.tool.owner == client,
            },
            ShelfAsk::Stock(_) => Facts {
                has_tool: self.tool.owner == client,
            },
        }
    }

    /// Serves the one that asks: what it is told, and the client that is told that it has the tool, or 0.
    pub fn serve(&mut self, asked: Asked) -> (Word, u32)
        ensures tables { self.new ≡ (serve self.old asked.client asked.ask).tables }
        ensures told { (asked.client, result.0) ∷ told_heir result.1
            ≡ (serve self.old asked.client asked.ask).told }
    {
        match asked.ask {
            Ask::Tool(ask) => self.tool.serve(asked.client, ask),
            Ask::Shelf(ask) => {
                let facts = self.shelf_facts(asked.client, ask);
                (self.shelf.serve(asked.client, ask, facts), 0)
            }
        }
    }
}

/// The tables that held parts show, with so many clients: where a part isn't held, its table is empty.
fn lift(held: &Hand<Shop>, clients: u32) -> Tables
    requires few { clients < 256 }
    ensures { result ≡ record {
      shelf = shelf_in (held_at held.now 0);
      tool = tool_in (held_at held.now (1 + clients));
    } }
{
    let shelf = match held.get(0) {
        Some(ShopPart::Shelf(shelf)) => *shelf,
        _ => Shelf { pieces: 0 },
    };
    let tool = match held.get(1 + clients) {
        Some(ShopPart::Tool(tool)) => *tool,
        _ => Tool { owner: 0, next: 0 },
    };
    Tables { shelf, tool }
}

/// Puts a part into its place, where one is held there.
#[tactic(auto, using(crate::proofs::Places::written, crate::proofs::Places::free_stays))]
fn put_back(held: &mut Hand<Shop>, place: u32, part: ShopPart)
    ensures { held.new ≡ change (option_map (λ there. part)) held.old place }
{
    match held.get_mut(place) {
        Some(there) => *there = part,
        None => {}
    }
}

/// Puts the tables back into the parts that are held.
fn lower(held: &mut Hand<Shop>, clients: u32, tables: Tables)
    requires few { clients < 256 }
    ensures { held.new ≡ with_tables shop clients tables held.old }
{
    put_back(held, 0, ShopPart::Shelf(tables.shelf));
    put_back(held, 1 + clients, ShopPart::Tool(tables.tool));
}

/// Makes room for words in the part of a client, in place of the room that there was.
fn make_room(held: &mut Hand<Shop>, client: u32, words: usize) -> Result<(), AllocError>
    requires held { IsRow (held_at held.old client) }
    ensures made { OnOk result (
        held.new ≡ change (option_map (on_row (with_room words))) held.old client) }
    ensures kept { OnErr result (held.new ≡ held.old) }
{
    let Some(mut part) = held.take(client) else {
        unreachable!()
    };
    let made = match &mut *part {
        ShopPart::Client(row) => row.reserve(words),
        _ => unreachable!(),
    };
    held.put(client, part);
    made
}

/// Gives up the room in the part of a client.
fn release(held: &mut Hand<Shop>, client: u32)
    requires held { IsRow (held_at held.old client) }
    ensures { held.new ≡ change (option_map (on_row (with_room 0))) held.old client }
{
    let Some(mut part) = held.take(client) else {
        unreachable!()
    };
    match &mut *part {
        ShopPart::Client(row) => row.release(),
        _ => unreachable!(),
    }
    held.put(client, part);
}

/// Tells a client something, which uses the room for one word in its part.
fn tell(held: &mut Hand<Shop>, client: u32, word: Word)
    requires held { IsRow (held_at held.old client) }
    requires room { 0 < (roomy_in (held_at held.old client)).room }
    ensures { held.new ≡ change (option_map (on_row (with_word word))) held.old client }
{
    let Some(mut part) = held.take(client) else {
        unreachable!()
    };
    match &mut *part {
        ShopPart::Client(row) => row.tell(word),
        _ => unreachable!(),
    }
    held.put(client, part);
}

/// Puts the tables back and tells a client one word: room is made for it first.
fn put_word(
    held: &mut Hand<Shop>,
    clients: u32,
    tables: Tables,
    client: u32,
    word: Word,
) -> Result<(), AllocError>
    requires few { clients < 256 }
    requires among { (1 ≤ client) × (client ≤ clients) }
    requires held { IsRow (held_at held.old client) }
    ensures put { OnOk result (held.new
        ≡ told_all shop clients ((client, word) ∷ []) (with_tables shop clients tables held.old)) }
    ensures kept { OnErr result (held.new ≡ held.old) }
{
    make_room(held, client, 1)?;
    lower(held, clients, tables);
    tell(held, client, word);
    Ok(())
}

/// Puts the tables back and tells one client two words.
fn put_words(
    held: &mut Hand<Shop>,
    clients: u32,
    tables: Tables,
    client: u32,
    words: (Word, Word),
) -> Result<(), AllocError>
    requires few { clients < 256 }
    requires among { (1 ≤ client) × (client ≤ clients) }
    requires held { IsRow (held_at held.old client) }
    ensures put { OnOk result (held.new
        ≡ told_all shop clients ((client, words.0) ∷ (client, words.1) ∷ [])
        (with_tables shop clients tables held.old)) }
    ensures kept { OnErr result (held.new ≡ held.old) }
{
    make_room(held, client, 2)?;
    lower(held, clients, tables);
    tell(held, client, words.0);
    tell(held, client, words.1);
    Ok(())
}

/// Makes room for a word in the parts of two clients, or in neither.
fn make_rooms(held: &mut Hand<Shop>, client: u32, other: u32) -> Result<(), AllocError>
    requires apart { client ≢ other }
    requires held { IsRow (held_at held.old client) }
    requires empty { (roomy_in (held_at held.old client)).room ≡ 0 }
    requires held_other { IsRow (held_at held.old other) }
    ensures made { OnOk result (held.new ≡ change (option_map (on_row (with_room 1)))
        (change (option_map (on_row (with_room 1))) held.old client) other) }
    ensures kept { OnErr result (held.new ≡ held.old) }
{
    make_room(held, client, 1)?;
    if let Err(error) = make_room(held, other, 1) {
        release(held, client);
        return Err(error);
    }
    Ok(())
}

/// Puts the tables back and tells each of two clients a word: room is made in both of their parts first.
fn put_word_each(
    held: &mut Hand<Shop>,
    clients: u32,
    tables: Tables,
    told: (u32, Word),
    also: (u32, Word),
) -> Result<(), AllocError>
    requires few { clients < 256 }
    requires apart { told.0 ≢ also.0 }
    requires among { (1 ≤ told.0) × (told.0 ≤ clients) }
    requires among_also { (1 ≤ also.0) × (also.0 ≤ clients) }
    requires held { IsRow (held_at held.old told.0) }
    requires empty { (roomy_in (held_at held.old told.0)).room ≡ 0 }
    requires held_also { IsRow (held_at held.old also.0) }
    ensures put { OnOk result (held.new
        ≡ told_all shop clients (told ∷ also ∷ []) (with_tables shop clients tables held.old)) }
    ensures kept { OnErr result (held.new ≡ held.old) }
{
    make_rooms(held, told.0, also.0)?;
    lower(held, clients, tables);
    tell(held, told.0, told.1);
    tell(held, also.0, also.1);
    Ok(())
}

/// Puts the tables back and tells the one that asked its word, and the one that has the tool then, if there is one,
/// that it has it.
fn put_in_place(
    held: &mut Hand<Shop>,
    clients: u32,
    tables: Tables,
    told: (u32, Word),
    heir: u32,
) -> Result<(), AllocError>
    requires few { clients < 256 }
    requires among { (1 ≤ told.0) × (told.0 ≤ clients) }
    requires held { IsRow (held_at held.old told.0) }
    requires empty { (roomy_in (held_at held.old told.0)).room ≡ 0 }
    requires held_heir { 1 ≤ heir → heir ≤ clients → IsRow (held_at held.old heir) }
    ensures put { OnOk result (held.new
        ≡ told_all shop clients (told ∷ told_heir heir)
        (with_tables shop clients tables held.old)) }
    ensures kept { OnErr result (held.new ≡ held.old) }
{
    if heir == 0 || heir > clients {
        return put_word(held, clients, tables, told.0, told.1);
    }
    if heir == told.0 {
        return put_words(held, clients, tables, heir, (told.1, Word::Yours));
    }
    put_word_each(held, clients, tables, told, (heir, Word::Yours))
}

/// Serves the one that asks, on held parts. First the tables are lifted out of them, what is asked for is done on
/// these, and room is made in the parts of the clients that are told something, which alone may want memory. Then all
/// is put in place, and can't fail. Without memory the parts are as before.
pub fn apply(held: &mut Hand<Shop>, asked: Asked) -> Result<(), AllocError>
    requires of { (s : State) × IsHandOf held.old (parts_of s) }
    requires few { length held.old ≤ 256 }
    requires among { (1 ≤ asked.client) × (asked.client ≤ clients_among (length held.old)) }
    requires enough { need asked held.old ≡ [] }
    // They are then parts of the state after the step, whichever state they were parts of.
    ensures step { OnOk result ((s : State) → IsHandOf held.old (parts_of s)
        → IsHandOf held.new (parts_of (step s asked))) }
    ensures parts { OnOk result (held.new ≡ after asked held.old) }
    ensures kept { OnErr result (held.new ≡ held.old) }
{
    let clients = held.places() as u32 - 2;
    let mut tables = lift(held, clients);
    let (word, heir) = tables.serve(asked);
    put_in_place(held, clients, tables, (asked.client, word), heir)
}
