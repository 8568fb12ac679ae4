ghost use Rattle.std.specs.Prelude.{◌≡◌, ℕ, ◌+◌, ◌<◌, ◌↔◌, false, [], length, None, IsSome, IsTrue, IfOk, IfSome};
ghost use Rattle.std.specs.Prelude.{slice_get};
ghost use Rattle.std.specs.Option.{ForSome};
ghost use Rattle.link_lists.specs.Pool.{has, list_of, where_of, first_of, next_of, empty_pool, lists_after_insert, lists_after_remove};
ghost use Rattle.link_lists.specs.Pool.{IsProper, SetsOnly};
ghost use Rattle.link_lists.specs.Links.{with_link};

use std::alloc::{AllocError, Global};
use std::marker::Model;

// New ids go to the front, where Quake's `SV_LinkEdict` puts them at the end: no rule depends on the order, and the
// front needs no link to the end.
/// Doubly linked lists over one pool of ids, as the area lists of Quake's world: each id is in one
/// list at most, and there once.
///
/// Ids and lists are counted from 0. Only `new` takes memory. `new` and `copy_from` take time for each id and list, and
/// every other call takes constant time.
#[derive(Debug, Drop)]
pub struct Lists {
    heads: Vec<Option<u16>>,
    next: Vec<Option<u16>>,
    prev: Vec<Option<u16>>,
    places: Vec<Option<u8>>,
}

// Clauses see how many ids there are, and the ids of each list in order.
impl Model for Lists {
    ghost use Rattle.link_lists.specs.Pool.{ListsView};
    ghost use Rattle.link_lists.specs.Links.{pool_of, IsLinkedAs};

    ghost Value = { ListsView };

    ghost view = { λ l. pool_of l.heads.items l.next.items };

    ghost invariant = { λ l.
        IsLinkedAs l.heads.items l.next.items l.prev.items l.places.items (pool_of l.heads.items l.next.items) };
}

// Links the id, if there is one, back to another.
fn link_back(prev: &mut [Option<u16>], id: Option<u16>, to: Option<u16>)
    requires { ForSome id (λ i. i < length prev.old) }
    ensures { prev.new ≡ with_link prev.old id to }
{
    if let Some(id) = id {
        prev[usize::from(id)] = to;
    }
}

impl Lists {
    /// Makes `lists` empty lists over the ids below `ids`. The only error is that memory is refused.
    pub fn new(alloc: Global, ids: u16, lists: u8) -> Result<Self, AllocError>
        ensures { IfOk result (λ made. made ≡ empty_pool ids lists) }
    {
        let ids = usize::from(ids);
        Ok(Lists {
            heads: vec![in alloc; None; usize::from(lists)]?,
            next: vec![in alloc; None; ids]?,
            prev: vec![in alloc; None; ids]?,
            places: vec![in alloc; None; ids]?,
        })
    }

    /// Puts an id that is in no list first in this one. Quake's `SV_LinkEdict` puts it last.
    pub fn insert(&mut self, list: u8, id: u16)
        requires list_in_range { list < length self.old.lists }
        requires id_in_range { id < self.old.ids }
        requires unlinked { where_of self.old id ≡ None }
        ensures lists { self.new ≡ lists_after_insert self.old list id }
        ensures place { SetsOnly self.old self.new id (Some list) }
        ensures proper { IsProper self.new }
    {
        let index = usize::from(id);
        let head = usize::from(list);
        let first = self.heads[head];
        link_back(&mut self.prev, first, Some(id));
        self.next[index] = first;
        self.heads[head] = Some(id);
        self.places[index] = Some(list);
    }

    /// Takes the id out of its list. The others keep their order.
    pub fn remove(&mut self, id: u16)
        requires { IsSome (where_of self.old id) }
        ensures lists { self.new ≡ lists_after_remove self.old id }
        ensures place { SetsOnly self.old self.new id None }
        ensures proper { IsProper self.new }
    {
        let index = usize::from(id);
        let before = self.prev[index].take();
        let after = self.next[index].take();
        let list = self.places[index].take().unwrap();
        link_back(&mut self.prev, after, before);
        match before {
            Some(before) => self.next[usize::from(before)] = after,
            None => self.heads[usize::from(list)] = after,
        }
    }

    /// The list that the id is in, and `None` exactly where it is in none.
    pub fn where_is(&self, id: u16) -> Option<u8>
        ensures place { result ≡ where_of self.now id }
        ensures member { (list : ℕ) → (result ≡ Some list) ↔ IsTrue (has (list_of self.now list) id) }
        ensures none { (result ≡ None) ↔ ((list : ℕ) → has (list_of self.now list) id ≡ false) }
        ensures proper { IsProper self.now }
    {
        self.places.get(usize::from(id)).copied().flatten()
    }

    /// The first id of the list, and `None` exactly where the list is empty. A list out of range
    /// counts as empty.
    pub fn first(&self, list: u8) -> Option<u16>
        ensures first { result ≡ first_of self.now list }
        ensures none { (result ≡ None) ↔ (list_of self.now list ≡ []) }
        ensures member { IfSome result (λ id. where_of self.now id ≡ Some list) }
        ensures proper { IsProper self.now }
    {
        self.heads.get(usize::from(list)).copied().flatten()
    }

    /// The id that comes after this one in its list, and `None` exactly where this one is the last.
    pub fn next(&self, id: u16) -> Option<u16>
        requires { IsSome (where_of self.now id) }
        ensures next { result ≡ next_of self.now id }

        // Wherever the id is in a list, the result is what is at the next place, and none exactly at the last.
        ensures follows { (list place : ℕ) → slice_get (list_of self.now list) place ≡ Some id
            → result ≡ slice_get (list_of self.now list) (place + 1) }
        ensures none { (list place : ℕ) → slice_get (list_of self.now list) place ≡ Some id
            → (result ≡ None) ↔ (length (list_of self.now list) ≡ place + 1) }
        ensures same_list { IfSome result (λ other. where_of self.now other ≡ where_of self.now id) }
        ensures proper { IsProper self.now }
    {
        self.next[usize::from(id)]
    }

    /// Makes these lists equal to the others, the order of each too. It takes no memory, and time for each id and list.
    pub fn copy_from(&mut self, o: &Lists)
        requires ids { self.old.ids ≡ o.now.ids }
        requires lists { length self.old.lists ≡ length o.now.lists }
        ensures { self.new ≡ o.now }
    {
        self.heads.copy_from_slice(&o.heads);
        self.next.copy_from_slice(&o.next);
        self.prev.copy_from_slice(&o.prev);
        self.places.copy_from_slice(&o.places);
    }
}

#[cfg(test)]
mod tests {
    use super::*;
    use std::process::Abort;
    use std::test::Fail;

    /// Expects this id first in a list.
    fn expect_first(rt: &impl Abort, lists: &Lists, list: u8, want: Option<u16>) {
        assert_eq!(rt; lists.first(list), want);
    }

    /// Expects this id after another, which is in a list.
    fn expect_next(rt: &impl Abort, lists: &Lists, id: u16, want: Option<u16>)
        requires { IsSome (where_of lists.now id) }
    {
        assert_eq!(rt; lists.next(id), want);
    }

    /// Expects an id in this list.
    fn expect_where(rt: &impl Abort, lists: &Lists, id: u16, want: Option<u8>) {
        assert_eq!(rt; lists.where_is(id), want);
    }

    /// Two lists over four ids, with 3 and then 0 put in list 1.
    fn filled(alloc: Global) -> Result<Lists, Fail>
        ensures { IfOk result (λ made. made ≡ lists_after_insert (lists_after_insert (empty_pool 4 2) 1 3) 1 0) }
    {
        let mut lists = Lists::new(alloc, 4, 2)?;
        lists.insert(1, 3);
        lists.insert(1, 0);
        Ok(lists)
    }

    #[test]
    fn the_last_one_put_in_goes_first(rt: HostRuntime) -> Result<(), Fail> {
        let lists = filled(rt.alloc())?;
        expect_first(&rt, &lists, 1, Some(0));
        expect_next(&rt, &lists, 0, Some(3));
        expect_next(&rt, &lists, 3, None);
        Ok(())
    }

    #[test]
    fn a_copy_has_the_others_order(rt: HostRuntime) -> Result<(), Fail> {
        let mut copy = Lists::new(rt.alloc(), 4, 2)?;
        copy.copy_from(&filled(rt.alloc())?);
        expect_first(&rt, &copy, 1, Some(0));
        expect_next(&rt, &copy, 0, Some(3));
        Ok(())
    }

    #[test]
    fn taking_one_out_leaves_the_others_in_order(rt: HostRuntime) -> Result<(), Fail> {
        let mut lists = filled(rt.alloc())?;
        lists.remove(0);
        expect_first(&rt, &lists, 1, Some(3));
        expect_next(&rt, &lists, 3, None);
        expect_where(&rt, &lists, 3, Some(1));
        expect_where(&rt, &lists, 0, None);
        expect_first(&rt, &lists, 0, None);
        Ok(())
    }

    #[test]
    fn lists_of_a_world_are_as_many_as_its_nodes_ask_for(rt: HostRuntime) -> Result<(), Fail> {
        let mut lists = Lists::new(rt.alloc(), 512, 126)?;
        lists.insert(125, 511);
        expect_where(&rt, &lists, 511, Some(125));
        expect_first(&rt, &lists, 125, Some(511));
        Ok(())
    }
}
