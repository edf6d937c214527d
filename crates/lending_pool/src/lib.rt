//! A fixed set of values, each of which one thread has at a time.
#![tactic(auto)]

ghost use Rattle.std.specs.Prelude.{◌≡◌, ◌+◌, IfOk, MatchOption, vec_len};
ghost use Rattle.lending_pool.specs.declared.Standing.TheVariants as standing;

use std::alloc::{AllocError, Global};
use std::marker::Model;
use std::sync::{Mutex, Wait};

/// What stands in a place.
#[derive(Drop)]
enum Standing<T: Drop> {
    /// A value that anybody may have.
    Free(T),
    /// A value that nobody may have any more.
    UsedUp(T),
    /// Nothing: its value is lent.
    Lent,
}

type Place<T> = Mutex<Standing<T>>;

/// Values, each of them lent or in its place. Contracts see how many places there are.
#[derive(Drop)]
pub struct Pool<T: Drop> {
    places: Vec<Place<T>>,
}

impl<T: Drop> Model for Pool<T> {
    ghost use Rattle.std.specs.Prelude.{ℕ, vec_len};

    ghost Value = { ℕ };

    ghost view = { λ p. vec_len p.places };
}

/// A value that is lent. It is put back into its place where this is dropped.
pub struct Lent<'p, T: Drop, R: Wait + Copy> {
    pub value: T,
    place: &'p Place<T>,
    rt: R,
}

/// Takes a value that is free out of its place.
fn take<T: Drop>(place: &mut Standing<T>) -> Option<T>
    ensures { MatchOption result (place.new ≡ place.old)
        (λ value. (place.old ≡ standing.Free value) × (place.new ≡ standing.Lent)) }
{
    match std::mem::replace(place, Standing::Lent) {
        Standing::Free(value) => Some(value),
        other => {
            *place = other;
            None
        }
    }
}

/// Puts a value into its place.
fn put<T: Drop>(place: &mut Standing<T>, standing: Standing<T>)
    ensures { place.new ≡ standing }
{
    *place = standing;
}

impl<T: Drop> Standing<T> {
    fn is_free(&self) -> bool {
        matches!(self, Standing::Free(_))
    }

    /// The value, unless it is lent.
    fn into_value(self) -> Option<T> {
        match self {
            Standing::Free(value) | Standing::UsedUp(value) => Some(value),
            Standing::Lent => None,
        }
    }
}

impl<T: Drop> Pool<T> {
    /// These values, each in a place of its own.
    pub fn new(alloc: Global, values: Vec<T>) -> Result<Pool<T>, AllocError>
        ensures { IfOk result (λ pool. pool ≡ vec_len values) }
    {
        let mut places = Vec::with_capacity(alloc, values.len())?;
        for value in values {
            places.push(Mutex::new(Standing::Free(value)))?;
        }
        Ok(Pool { places })
    }

    /// A value that nobody has, if there is one.
    pub fn lend<R: Wait + Copy>(&self, rt: &R) -> Option<Lent<'_, T, R>> {
        for place in &self.places {
            if let Some(value) = take(&mut place.lock(rt)) {
                return Some(Lent {
                    value,
                    place,
                    rt: *rt,
                });
            }
        }
        None
    }

    /// Takes a place away, with its value unless that is lent still; None where there is no place any more.
    pub fn pop(&mut self) -> Option<Option<T>>
        ensures { MatchOption result ((self.old ≡ 0) × (self.new ≡ 0)) (λ _. self.old ≡ self.new + 1) }
    {
        let place = self.places.pop()?;
        Some(place.into_inner().into_value())
    }

    /// Whether nobody can have a value now.
    pub fn is_empty<R: Wait>(&self, rt: &R) -> bool {
        !self.places.iter().any(|place| place.lock(rt).is_free())
    }
}

impl<T: Drop, R: Wait + Copy> Lent<'_, T, R> {
    /// Puts the value back for good: nobody can have it any more.
    pub fn use_up(self) {
        let Lent { value, place, rt } = self;
        put(&mut place.lock(&rt), Standing::UsedUp(value));
    }
}

impl<T: Drop, R: Wait + Copy> Drop for Lent<'_, T, R> {
    fn drop(self) {
        let Lent { value, place, rt } = self;
        put(&mut place.lock(&rt), Standing::Free(value));
    }
}
