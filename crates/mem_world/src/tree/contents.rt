// The bytes of files.
ghost use Rattle.std.specs.Prelude.{◌≡◌, ◌+◌, ◌<◌, ◌≤◌, ◌++◌, [], ℕ, All, length, take, ◌==◌, if◌then◌else◌, OnOk, OnErr, IfOk};
ghost use Rattle.mem_world.specs.TreeContents.{HasRoom, bytes_in, room_at, place_in};
ghost use Rattle.mem_world.specs.WorldSteps.{event_of, added_by};

use crate::world::WorldStep;
use std::alloc::{AllocError, Global};

/// The longest that a file may grow.
const LARGEST_SIZE: usize = 4611686018427387904;

/// The bytes of a file, and how many more there is room for.
#[derive(Drop)]
pub struct Content {
    pub file: u32,
    pub room: usize,
    pub bytes: Vec<u8>,
}

// How many contents stand before that of the file.
fn place_of(contents: &[Content], file: u32) -> usize
    ensures { result ≡ place_in contents.now file }
{
    for (place, content) in contents.iter().enumerate() {
        if content.file == file {
            return place;
        }
    }
    contents.len()
}

pub fn bytes_of(contents: &[Content], file: u32) -> &[u8]
    requires { All HasRoom contents.now }
    ensures bytes { result.now ≡ bytes_in contents.now file }
    ensures small { length result.now ≤ 4611686018427387904 }
{
    let place = place_of(contents, file);
    if place < contents.len() {
        contents[place].bytes.as_slice()
    } else {
        &[]
    }
}

/// Appends what the step appends, for which there is room.
pub fn grow(contents: &mut Vec<Content>, step: &WorldStep)
    requires kept { All HasRoom contents.old.items }
    requires room { (other : ℕ) → length (added_by (event_of step.now) other) ≤ room_at contents.old.items other }
    ensures kept { All HasRoom contents.new.items }
    ensures bytes { (other : ℕ) → bytes_in contents.new.items other
        ≡ bytes_in contents.old.items other ++ added_by (event_of step.now) other }
    ensures rooms { (other : ℕ) → room_at contents.new.items other + length (added_by (event_of step.now) other)
        ≡ room_at contents.old.items other }
{
    if let WorldStep::Append { file, bytes } = step {
        fill(contents, file.0, bytes.as_slice());
    }
}

// Appends the bytes, for which there is room.
fn fill(contents: &mut Vec<Content>, file: u32, more: &[u8])
    requires kept { All HasRoom contents.old.items }
    requires room { length more.now ≤ room_at contents.old.items file }
    ensures kept { All HasRoom contents.new.items }
    ensures bytes { (other : ℕ) → bytes_in contents.new.items other
        ≡ bytes_in contents.old.items other ++ (if file == other then more.now else []) }
    ensures rooms { (other : ℕ) → room_at contents.new.items other + length (if file == other then more.now else [])
        ≡ room_at contents.old.items other }
{
    let held = contents.as_slice();
    let place = place_of(held, file);
    if place < held.len() {
        fill_one(&mut contents[place], more);
    }
}

fn fill_one(content: &mut Content, more: &[u8])
    requires kept { HasRoom content.old }
    requires room { length more.now ≤ content.old.room }
    ensures kept { HasRoom content.new }
    ensures file { content.new.file ≡ content.old.file }
    ensures bytes { content.new.bytes.items ≡ content.old.bytes.items ++ more.now }
    ensures room { content.new.room + length more.now ≡ content.old.room }
{
    if content.bytes.extend_from_slice(more).is_err() {
        unreachable!();
    }
    content.room -= more.len();
}

/// Leaves the file so many bytes, where it has more.
pub fn cut(contents: &mut Vec<Content>, file: u32, size: usize)
    requires { All HasRoom contents.old.items }
    ensures kept { All HasRoom contents.new.items }
    ensures bytes { (other : ℕ) → bytes_in contents.new.items other
        ≡ (if file == other then take size (bytes_in contents.old.items other) else bytes_in contents.old.items other) }
    ensures rooms { (other : ℕ) → room_at contents.new.items other ≡ room_at contents.old.items other }
{
    let held = contents.as_slice();
    let place = place_of(held, file);
    if place < held.len() {
        cut_one(&mut contents[place], size);
    }
}

fn cut_one(content: &mut Content, size: usize)
    requires { HasRoom content.old }
    ensures kept { HasRoom content.new }
    ensures file { content.new.file ≡ content.old.file }
    ensures bytes { content.new.bytes.items ≡ take size content.old.bytes.items }
    ensures room { content.new.room ≡ content.old.room }
{
    content.bytes.truncate(size);
}

/// Makes room for what the step appends.
pub fn make_room(
    contents: &mut Vec<Content>,
    alloc: Global,
    step: &WorldStep,
) -> Result<(), AllocError>
    requires { All HasRoom contents.old.items }
    ensures kept { All HasRoom contents.new.items }
    ensures bytes { (other : ℕ) → bytes_in contents.new.items other ≡ bytes_in contents.old.items other }
    ensures ok { OnOk result ((other : ℕ) → room_at contents.new.items other
        ≡ room_at contents.old.items other + length (added_by (event_of step.now) other)) }
    ensures err { OnErr result ((other : ℕ) → room_at contents.new.items other ≡ room_at contents.old.items other) }
{
    match step {
        WorldStep::Append { file, bytes } => reserve(contents, alloc, file.0, bytes.as_slice()),
        WorldStep::Create { .. } | WorldStep::Rename { .. } | WorldStep::Remove { .. } => Ok(()),
    }
}

// Makes room for these bytes of the file.
fn reserve(
    contents: &mut Vec<Content>,
    alloc: Global,
    file: u32,
    more: &[u8],
) -> Result<(), AllocError>
    requires { All HasRoom contents.old.items }
    ensures kept { All HasRoom contents.new.items }
    ensures bytes { (other : ℕ) → bytes_in contents.new.items other ≡ bytes_in contents.old.items other }
    ensures ok { OnOk result ((other : ℕ) → room_at contents.new.items other
        ≡ room_at contents.old.items other + length (if file == other then more.now else [])) }
    ensures err { OnErr result ((other : ℕ) → room_at contents.new.items other ≡ room_at contents.old.items other) }
{
    let place = place_for(contents, alloc, file)?;
    reserve_one(&mut contents[place], more.len())?;
    Ok(())
}

// The place of the file's content, which is there from now on.
fn place_for(contents: &mut Vec<Content>, alloc: Global, file: u32) -> Result<usize, AllocError>
    requires { All HasRoom contents.old.items }
    ensures kept { All HasRoom contents.new.items }
    ensures bytes { (other : ℕ) → bytes_in contents.new.items other ≡ bytes_in contents.old.items other }
    ensures rooms { (other : ℕ) → room_at contents.new.items other ≡ room_at contents.old.items other }
    ensures place { IfOk result (λ place. place ≡ place_in contents.new.items file) }
    ensures there { IfOk result (λ place. place < length contents.new.items) }
{
    let held = contents.as_slice();
    let place = place_of(held, file);
    if place >= held.len() {
        contents.push(Content {
            file,
            room: 0,
            bytes: Vec::new(alloc),
        })?;
    }
    Ok(place)
}

fn reserve_one(content: &mut Content, more: usize) -> Result<(), AllocError>
    requires { HasRoom content.old }
    ensures kept { HasRoom content.new }
    ensures file { content.new.file ≡ content.old.file }
    ensures bytes { content.new.bytes.items ≡ content.old.bytes.items }
    ensures ok { OnOk result (content.new.room ≡ content.old.room + more) }
    ensures err { OnErr result (content.new.room ≡ content.old.room) }
{
    if more > LARGEST_SIZE - (content.bytes.len() + content.room) {
        return Err(AllocError);
    }
    content.bytes.reserve(content.room + more)?;
    content.room += more;
    Ok(())
}
