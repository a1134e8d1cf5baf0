//! The jobs that are left in a pool, counted and taken out. No call allocates.

ghost use Rattle.std.specs.Prelude.{◌≡◌, ◌+◌, ◌≤◌, ◌++◌, [], length, option_to_list, is_some, vec_len, count_by};
ghost use Rattle.std.specs.Prelude.{IsPermutation};
ghost use Rattle.std.specs.List.{filter_map};
ghost use Rattle.std.specs.List.Sorted.{IsNonDecreasingBy};
ghost use Rattle.std.specs.Vec.{vec_capacity};
ghost use Rattle.pool_core.specs.Pools.{task_at, left_in};

use crate::crew::Crew;
use crate::pool::PoolCore;
use crate::stages::Task;

impl<J> PoolCore<J> {
    /// Returns how many jobs are left in the pool: the buffered ones, and those in the hands of workers.
    pub fn left(&self) -> u64
        ensures { result ≡ length (left_in self.now.pool) }
    {
        self.stays_sound();
        self.line.kept() + tasks_in(&self.workers) as u64
    }

    /// Takes the pool apart, and returns the jobs that are left in it: the buffered ones, in order of arrival, and
    /// those in the hands of workers, by number. The list must have room for them (`left` returns how many they are).
    pub fn into_left(self, empty: Vec<Task<J>>) -> Vec<Task<J>>
        requires empty { empty.items ≡ [] }
        requires room { length (left_in self.pool) ≤ vec_capacity empty }
        ensures { result.items ≡ left_in self.pool }
    {
        let PoolCore {
            alloc: _,
            settings: _,
            shut: _,
            line,
            workers,
            largest: _,
            done: _,
            back: _,
            dropped: _,
            ran: _,
            next: _,
            room: _,
            list,
        } = self;
        list.destroy_empty();
        let mut line = line;
        let mut left = empty;
        line.drop_takes();
        line.hand_back(&mut left);
        line.destroy_empty();
        empty_hands(workers, &mut left);
        left
    }

    /// Takes the pool apart as `into_left` does, and returns the jobs by rising ticket: n jobs cost n log n.
    pub fn into_left_by_ticket(self, empty: Vec<Task<J>>) -> Vec<Task<J>>
        requires empty { empty.items ≡ [] }
        requires room { length (left_in self.pool) ≤ vec_capacity empty }
        ensures items { IsPermutation (left_in self.pool) result.items }
        ensures rises { IsNonDecreasingBy (λ task. task.ticket) result.items }
    {
        let mut left = self.into_left(empty);
        left.sort_unstable_by_key(|task| task.ticket);
        left
    }
}

/// How many workers have a job in hand.
fn tasks_in<J>(workers: &Crew<J>) -> usize
    ensures { result ≡ count_by (λ stage. is_some (task_at stage)) workers.now }
{
    let stages = workers.stages();
    stages.iter().filter(|stage| stage.has_task()).count()
}

/// The jobs of workers go behind the others.
fn empty_hands<J>(workers: Crew<J>, left: &mut Vec<Task<J>>)
    requires { vec_len left.old + length (filter_map task_at workers) ≤ vec_capacity left.old }
    ensures items { left.new.items ≡ left.old.items ++ filter_map task_at workers }
    ensures capacity { vec_capacity left.new ≡ vec_capacity left.old }
{
    let mut workers = workers.into_stages().into_iter();
    while let Some(stage) = workers.next() {
        push_task(left, stage.into_task());
    }
    workers.destroy_empty();
}

/// Puts this behind the others, where it is something.
fn push_task<J>(list: &mut Vec<Task<J>>, task: Option<Task<J>>)
    requires { vec_len list.old + length (option_to_list task) ≤ vec_capacity list.old }
    ensures items { list.new.items ≡ list.old.items ++ option_to_list task }
    ensures len { vec_len list.new ≡ vec_len list.old + length (option_to_list task) }
    ensures capacity { vec_capacity list.new ≡ vec_capacity list.old }
{
    match task {
        None => {}
        Some(task) => list.push_reserved(task),
    }
}
