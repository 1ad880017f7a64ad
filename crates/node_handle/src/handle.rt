// The handle: a pointer that a program in C holds. At null it is empty; else it owns the node there.
ghost use Rattle.std.specs.Prelude.{◌≡◌, None, Some, Option, MatchOption};
ghost use Rattle.std.specs.Coded.{coded_option};
ghost use Rattle.live_calls.specs.declared.held.HeldNode.{HeldNode as Held};
ghost use Rattle.node_handle.specs.Owned.{handle_owns, node_coded};

use crate::loose::Loose;
use live_calls::HeldNode;
use std::alloc::Global;
use std::marker::Model;
use std::mem::replace;
use std::ptr::null_mut;

/// A handle, which is empty or owns a node. C sees it as `struct otn_node`: it keeps it where it lies, hands it to one
/// call at a time, and never reads or writes it.
#[repr(C)]
#[derive(Drop)]
pub struct NodeHandle {
    at: *mut u8,
    alloc: Global,
    pub ghost value: { Option Held } by { coded_option node_coded },
}

impl Model for NodeHandle {
    ghost also_owns = { λ h. handle_owns h.alloc h.at h.value };
}

impl NodeHandle {
    /// An empty one.
    pub fn none(alloc: Global) -> NodeHandle
        ensures { result.value ≡ None }
    {
        NodeHandle {
            at: null_mut(),
            alloc,
        }
    }

    // One that owns the node at the pointer.
    fn of_loose(loose: Loose<HeldNode, Global>) -> NodeHandle
        ensures { result.value ≡ Some loose.value }
    {
        let Loose { at, alloc } = loose;
        NodeHandle {
            at: at as *mut u8,
            alloc,
        }
    }

    // The pointer, where it is not null.
    fn into_loose(self) -> Option<Loose<HeldNode, Global>>
        ensures { MatchOption result (self.value ≡ None) (λ l. self.value ≡ Some l.value) }
    {
        let NodeHandle { at, alloc } = self;
        if at.is_null() {
            None
        } else {
            Some(Loose {
                at: at as *mut HeldNode,
                alloc,
            })
        }
    }

    /// One that owns the node.
    pub fn of(value: Box<HeldNode>) -> NodeHandle
        ensures { result.value ≡ Some value.value }
    {
        NodeHandle::of_loose(Loose::of(value))
    }

    /// Takes what it owns, and leaves it empty.
    pub fn take(&mut self, alloc: Global) -> Option<Box<HeldNode>>
        ensures taken { MatchOption result (self.old.value ≡ None) (λ b. self.old.value ≡ Some b.value) }
        ensures left { self.new.value ≡ None }
    {
        match replace(self, NodeHandle::none(alloc)).into_loose() {
            Some(loose) => Some(loose.into_box()),
            None => None,
        }
    }
}
