// The disks that a volume may show.
ghost use Rattle.std.specs.Prelude.{◌≡◌, ◌∷◌, ◌++◌, [], ◌<◌, length, IfOk, IfSome, OnErr, OnOk, ◌==◌, ◌≢◌};
ghost use Rattle.model.specs.Disks.{after, candidates, created};
ghost use Rattle.model.specs.Histories.{chosen, first_disk};
ghost use Rattle.oracle.specs.Showing.{FirstShown, CanCount, CanCountAll, SameDisks, candidates_of, each_shown, shown, shown_option};
ghost use Rattle.model.specs.Strays.{stray_count};
ghost use Rattle.model.specs.declared.request.Answered.TheVariants.{Granted, Met, Refused};

use crate::count::strays;
use crate::disk::Disk;
use layout::Layout;
use model::request::Request;
use model::told::Told;
use shelf::Shelf;
use shelf::image::Image;
use std::alloc::{AllocError, Global};

// The disk to go on from, and after a call that met power or members lacking the further ones that a volume may show, in their order.
#[derive(Drop)]
pub struct Candidates {
    first: Disk,
    further: Vec<Disk>,
}

// Each disk as a granted call leaves it.
fn grant_each(disks: &mut [Disk], request: &Request)
    ensures { CanCountAll (each_shown disks.old) → SameDisks (after request.now Granted (each_shown disks.old)) (each_shown disks.new) }
{
    for disk in disks.iter_mut() {
        disk.grant(request);
    }
}

// Each disk as a refused call leaves it.
fn refuse_each(disks: &mut [Disk], request: &Request)
    ensures { SameDisks (after request.now Refused (each_shown disks.old)) (each_shown disks.new) }
{
    for disk in disks.iter_mut() {
        disk.refuse(request);
    }
}

// What a call that met power or members lacking may have left of a disk: the disk as it was, and as the call would have made it. An open adds none,
// and neither it nor a hand back spends a grant.
fn torn(heap: Global, disk: &Disk, request: &Request) -> Result<(Disk, Option<Disk>), AllocError>
    ensures { CanCount (shown disk.now) → IfOk result (λ p. SameDisks (candidates request.now (shown disk.now)) (shown p.0 ∷ shown_option p.1)) }
{
    let mut before = disk.copied(heap)?;
    if !matches!(request, Request::HandBack(_)) {
        before.refuse(request);
    }
    if matches!(request, Request::Open) {
        return Ok((before, None));
    }
    let mut after = disk.copied(heap)?;
    after.grant(request);
    Ok((before, Some(after)))
}

impl Candidates {
    // The disk of a volume that was just created.
    pub fn created(heap: Global, size: usize) -> Result<Candidates, AllocError>
        ensures { IfOk result (λ c. SameDisks (created size ∷ []) (candidates_of c)) }
    {
        Ok(Candidates {
            first: Disk::created(heap, size)?,
            further: Vec::new(heap),
        })
    }

    // The disk to go on from.
    pub fn first(&self) -> &Disk
        ensures { shown result.now ≡ first_disk (candidates_of self.now) }
    {
        &self.first
    }

    // A call was granted.
    pub fn grant(&mut self, request: &Request)
        ensures { CanCountAll (candidates_of self.old) → SameDisks (after request.now Granted (candidates_of self.old)) (candidates_of self.new) }
    {
        self.first.grant(request);
        grant_each(&mut self.further, request);
    }

    // A call was refused.
    pub fn refuse(&mut self, request: &Request)
        ensures { SameDisks (after request.now Refused (candidates_of self.old)) (candidates_of self.new) }
    {
        self.first.refuse(request);
        refuse_each(&mut self.further, request);
    }

    // A call met power or members lacking: each disk may be as it was, or as the call would have made it. Without memory the disks stay as they were.
    pub fn tear(&mut self, heap: Global, request: &Request) -> Result<(), AllocError>
        ensures kept { OnErr result (self.new ≡ self.old) }
        ensures torn { CanCountAll (candidates_of self.old) → OnOk result (SameDisks (after request.now Met (candidates_of self.old)) (candidates_of self.new)) }
    {
        let (first, after) = torn(heap, &self.first, request)?;
        let mut further = Vec::new(heap);
        push(&mut further, after)?;
        for disk in self.further.iter() {
            let (before, after) = torn(heap, disk, request)?;
            further.push(before)?;
            push(&mut further, after)?;
        }
        self.first = first;
        self.further = further;
        Ok(())
    }

    // An open was granted: goes on from the first disk that the shelf shows, and from the first of all where it shows none.
    pub fn choose<S: Image, L: Layout>(
        &mut self,
        shelf: &S,
        source: &L,
        target: &L,
        backup: u32,
        told: &Told,
    )
        ensures { backup ≢ 0 → candidates_of self.new ≡ chosen (L.geometry source.now) (L.geometry target.now) (S.Shelf.meaning shelf.now) backup told.now (first_disk (candidates_of self.old)) (candidates_of self.old) ∷ [] }
    {
        if !is_shown(&self.first, shelf, source, target, backup, told) {
            if let Some(at) = shown_at(&self.further, shelf, source, target, backup, told) {
                self.first = self.further.swap_remove(at);
            }
        }
        self.further.clear();
    }
}

// Whether a shelf shows the disk: no sector differs, and the volume tells the same.
fn is_shown<S: Image, L: Layout>(
    disk: &Disk,
    shelf: &S,
    source: &L,
    target: &L,
    backup: u32,
    told: &Told,
) -> bool
    ensures { backup ≢ 0 → result ≡ (stray_count (L.geometry source.now) (L.geometry target.now) (S.Shelf.meaning shelf.now) backup told.now (shown disk.now) == 0) }
{
    strays(shelf, source, target, backup, told, disk) == Some(0)
}

// The first of the disks that a shelf shows.
fn shown_at<S: Image, L: Layout>(
    disks: &[Disk],
    shelf: &S,
    source: &L,
    target: &L,
    backup: u32,
    told: &Told,
) -> Option<usize>
    ensures inside { IfSome result (λ i. i < length disks.now) }
    ensures first { backup ≢ 0 → FirstShown (λ d. stray_count (L.geometry source.now) (L.geometry target.now) (S.Shelf.meaning shelf.now) backup told.now (shown d) == 0) disks.now result }
{
    disks
        .iter()
        .position(|disk| is_shown(disk, shelf, source, target, backup, told))
}

// Pushes a disk, if there is one.
fn push(disks: &mut Vec<Disk>, disk: Option<Disk>) -> Result<(), AllocError>
    ensures { OnOk result (each_shown disks.new.items ≡ each_shown disks.old.items ++ shown_option disk) }
{
    if let Some(disk) = disk {
        disks.push(disk)?;
    }
    Ok(())
}
