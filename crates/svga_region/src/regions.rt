//! Regions, seen as a finite map from ids to places.
ghost use Rattle.std.specs.Prelude.{◌≡◌, ◌≢◌, ℕ, ◌+◌, ◌-◌, ◌<◌, ◌≤◌, ◌^◌, None, Some, IfOk, length, option_map, OnOk, OnErr, slice_index_or, unwrap_or, [], ◌∷◌};
ghost use Rattle.std.specs.FinMap as map;
ghost use Rattle.std.specs.Result.{result_err};
ghost use Rattle.svga_cmd.specs.Lent.{entries_of};
ghost use Rattle.svga_cmd.specs.Limits.{IsBetween};
ghost use Rattle.svga_cmd.specs.WellFormed.{HasEntries};
ghost use Rattle.svga_model.specs.RegionBytes.{byte_tests, byte_location, located};
ghost use Rattle.svga_model.specs.Regions.{places_of, region_length, id_tests, define_tests, with_region, remap_tests, with_remap, named_pages, range_pages};
ghost use Rattle.svga_model.specs.Standing.{first_standing};
ghost use Rattle.svga_region.specs.ChainCalls.{FinishesChain, ReadsChain, StartsChain};
ghost use Rattle.svga_region.specs.Conditions.{AreNamed, HasPlace, IsChainBegun, IsChainWhole};
ghost use Rattle.svga_region.specs.Numbers.{number_tests};
ghost use Rattle.svga_region.specs.RegionSet.{list_of, places_in};
ghost use Rattle.svga_region.specs.Places.{tests_of_byte};

use crate::chain::{ChainNext, Reading, next_of};
use crate::descriptor::Descriptor;
use crate::entries::name_bad_page;
use crate::placing::{listed_count, put_entries, put_runs};
use crate::table::read_table;
use std::alloc::{AllocError, Global};
use std::marker::Model;
use svga_cmd::constants::{
    MAX_DESCRIPTORS, MAX_FRAME_PAGES, MAX_GUEST_PAGES, MAX_PLACES, MAX_REGION_ID, PAGE_SIZE,
    REGION_IDS, SVGA_GMR_FRAMEBUFFER,
};
use svga_cmd::{EntriesRef, Fault, Page, PageKey};
use svga_rows::Rows;

/// All regions, and the chain that is being read, if one is.
#[derive(Drop)]
pub struct Regions {
    guest: u32,
    frame: u32,
    /// Which regions are defined, by their ids, and their lists.
    defined: Vec<bool>,
    lists: Rows<Option<PageKey>>,
    chain: Option<Reading>,
    /// The descriptors of that chain that were read.
    runs: Vec<Descriptor>,
}

impl Model for Regions {
    ghost use Rattle.std.specs.Prelude.{◌≡◌, ◌≤◌, option_map};
    ghost use Rattle.svga_cmd.specs.Limits.{IsBetween};
    ghost use Rattle.svga_cmd.specs.declared.constants.TheConstants.{MAX_FRAME_PAGES, MAX_GUEST_PAGES, MAX_PLACES};
    ghost use Rattle.svga_region.specs.Kept.{AreRuns, AreSlots, chain_of, regions_of};
    ghost use Rattle.svga_region.specs.RegionSet.{RegionSet, coded_set};

    ghost Value = { RegionSet };

    ghost coded = { coded_set };

    ghost view = { λ a. record {
      guest = a.guest;
      frame = a.frame;
      regions = regions_of a.defined.items
          a.lists.lists;
      chain = option_map (chain_of a.runs.items) a.chain;
    } };

    ghost invariant = { λ a. IsBetween 1 MAX_GUEST_PAGES a.guest × IsBetween 1 MAX_FRAME_PAGES a.frame
        × AreSlots a.defined.items a.lists.lists × (a.lists.room ≡ MAX_PLACES)
        × AreRuns a.runs.items a.chain };
}

impl Regions {
    /// No regions but the framebuffer's.
    pub fn new(alloc: Global, guest_pages: u32, frame_pages: u32) -> Result<Regions, AllocError>
        requires guest { IsBetween 1 MAX_GUEST_PAGES guest_pages }
        requires frame { IsBetween 1 MAX_FRAME_PAGES frame_pages }
        ensures { IfOk result (λ regions. regions ≡ record
            { guest = guest_pages; frame = frame_pages; regions = map.empty; chain = None }) }
    {
        let defined = vec![in alloc; false; REGION_IDS]?;
        let lists = Rows::new(alloc, REGION_IDS, MAX_PLACES as usize, None)?;
        let none = Descriptor { page: 0, count: 0 };
        let runs = vec![in alloc; none; MAX_DESCRIPTORS]?;
        Ok(Regions {
            guest: guest_pages,
            frame: frame_pages,
            defined,
            lists,
            chain: None,
            runs,
        })
    }

    /// Gives a region so many places, all unmapped, whatever it had before. With 0 places it goes.
    pub fn define(&mut self, id: u32, pages: u32) -> Result<(), Fault>
        ensures fault { result_err result ≡ first_standing (define_tests self.old.regions id pages) }
        ensures deletion { pages ≡ 0 → result_err result ≡ first_standing (id_tests id) }
        ensures ok { OnOk result (self.new ≡ record self.old
            { regions = with_region self.old.regions id pages }) }
        ensures err { OnErr result (self.new ≡ self.old) }
    {
        self.may_define(id, pages)?;
        self.define_allowed(id, pages);
        Ok(())
    }

    /// `define`, where nothing refuses it.
    pub fn define_allowed(&mut self, id: u32, pages: u32)
        requires { first_standing (define_tests self.old.regions id pages) ≡ None }
        ensures { self.new ≡ record self.old { regions = with_region self.old.regions id pages } }
    {
        let slot = id as usize;
        self.lists.replace(slot, pages as usize, None);
        self.defined[slot] = pages != 0;
    }

    /// Maps the places from `offset` on to the pages that the entries name.
    pub fn remap(
        &mut self,
        id: u32,
        offset: u32,
        pages: u32,
        entries: EntriesRef<'_>,
    ) -> Result<(), Fault>
        requires named { AreNamed (entries_of entries) }
        requires fits { HasEntries (entries_of entries) pages }
        ensures fault { result_err result ≡ first_standing
            (remap_tests self.old.guest self.old.regions id offset pages
            (named_pages (entries_of entries.entry) pages)) }
        ensures ok { OnOk result (self.new ≡ record self.old {
          regions = with_remap self.old.regions id offset
              (range_pages (entries_of entries.entry) pages);
        }) }
        ensures err { OnErr result (self.new ≡ self.old) }
    {
        self.may_remap(id, offset, pages, entries)?;
        self.remap_allowed(id, offset, pages, entries);
        Ok(())
    }

    /// `remap`, where nothing refuses it.
    pub fn remap_allowed(&mut self, id: u32, offset: u32, pages: u32, entries: EntriesRef<'_>)
        requires named { AreNamed (entries_of entries) }
        requires fits { HasEntries (entries_of entries) pages }
        requires allowed { first_standing (remap_tests self.old.guest self.old.regions id offset pages
            (named_pages (entries_of entries) pages)) ≡ None }
        ensures { self.new ≡ record self.old {
          regions = with_remap self.old.regions id offset
              (range_pages (entries_of entries.entry) pages);
        } }
    {
        let slot = id as usize;
        put_entries(&mut self.lists, slot, offset, self.guest, entries, pages);
    }

    /// Maps one place to a guest page.
    pub fn map_place(&mut self, id: u32, k: u32, page: u32)
        requires id { id ≤ MAX_REGION_ID }
        requires there { k < region_length self.old.regions id }
        requires page { page < self.old.guest }
        ensures { self.new ≡ record self.old { regions = with_remap self.old.regions id k (page ∷ []) } }
    {
        let key = PageKey::Guest(page);
        self.lists.set(id as usize, k as usize, Some(key));
    }

    /// What `define` would be refused with.
    pub fn may_define(&self, id: u32, pages: u32) -> Result<(), Fault>
        ensures fault { result_err result ≡ first_standing (define_tests self.now.regions id pages) }
        // A region that is deleted needs no room.
        ensures deletion { pages ≡ 0 → result_err result ≡ first_standing (id_tests id) }
    {
        if id > MAX_REGION_ID {
            return Err(Fault::RegionId);
        }
        let rest = self.lists.total() - self.lists.list(id as usize).len();
        if rest + pages as usize > MAX_PLACES as usize {
            return Err(Fault::PlaceLimit);
        }
        Ok(())
    }

    /// What a remap of these places would be refused with if its entries name pages of the guest.
    pub fn may_remap_range(&self, id: u32, offset: u32, pages: u32) -> Result<(), Fault>
        ensures { result_err result ≡ first_standing
            (remap_tests self.now.guest self.now.regions id offset pages []) }
    {
        if id > MAX_REGION_ID {
            return Err(Fault::RegionId);
        }
        let slot = id as usize;
        if !self.defined[slot] {
            return Err(Fault::NoRegion);
        }
        if offset as usize + pages as usize > self.lists.list(slot).len() {
            return Err(Fault::RangeBeyond);
        }
        Ok(())
    }

    /// What `remap` would be refused with.
    pub fn may_remap(
        &self,
        id: u32,
        offset: u32,
        pages: u32,
        entries: EntriesRef<'_>,
    ) -> Result<(), Fault>
        requires named { AreNamed (entries_of entries) }
        requires fits { HasEntries (entries_of entries) pages }
        ensures { result_err result ≡ first_standing
            (remap_tests self.now.guest self.now.regions id offset pages
            (named_pages (entries_of entries.entry) pages)) }
    {
        self.may_remap_range(id, offset, pages)?;
        self.may_name(entries, pages)
    }

    /// What the numbers that the entries of a remap name are refused with.
    pub fn may_name(&self, entries: EntriesRef<'_>, pages: u32) -> Result<(), Fault>
        requires { HasEntries (entries_of entries) pages }
        ensures { result_err result ≡ first_standing
            (number_tests self.now.guest (named_pages (entries_of entries.entry) pages)) }
    {
        if name_bad_page(self.guest, entries, pages) {
            return Err(Fault::BadPage);
        }
        Ok(())
    }

    /// How many places a region has.
    pub fn length(&self, id: u32) -> Option<u32>
        ensures { result ≡ option_map length (list_of self.now id) }
    {
        if id == SVGA_GMR_FRAMEBUFFER {
            Some(self.frame)
        } else if id > MAX_REGION_ID {
            None
        } else if !self.defined[id as usize] {
            None
        } else {
            Some(self.lists.list(id as usize).len() as u32)
        }
    }

    /// The page at a place, if the place is mapped.
    pub fn place(&self, id: u32, k: u32) -> Option<PageKey>
        requires { HasPlace (list_of self.now id) k }
        ensures { result ≡ slice_index_or (places_in self.now id) k None }
    {
        if id == SVGA_GMR_FRAMEBUFFER {
            Some(PageKey::Frame(k))
        } else {
            self.lists.list(id as usize)[k as usize]
        }
    }

    /// The page that a byte of a region lies on, and the byte's number there.
    pub fn locate(&self, id: u32, byte: u64) -> Result<(PageKey, u16), Fault>
        ensures fault { result_err result ≡ first_standing
            (byte_tests self.now.frame self.now.regions id byte) }
        ensures located { IfOk result (λ at. located self.now.frame self.now.regions id byte ≡ Some at) }
    {
        if id == SVGA_GMR_FRAMEBUFFER {
            let page = byte / PAGE_SIZE as u64;
            if page < self.frame as u64 {
                Ok((
                    PageKey::Frame(page as u32),
                    (byte % PAGE_SIZE as u64) as u16,
                ))
            } else {
                Err(Fault::BeyondRegion)
            }
        } else if id > MAX_REGION_ID {
            Err(Fault::RegionId)
        } else if !self.defined[id as usize] {
            Err(Fault::NoRegion)
        } else {
            locate_in(self.lists.list(id as usize), byte)
        }
    }

    /// Begins a chain of descriptors for a region, with its first table page. It takes the place of a chain
    /// that is under way.
    pub fn chain_start(&mut self, id: u32, first: u32) -> Result<(), Fault>
        requires { first ≢ 0 }
        ensures { StartsChain self.old id first result self.new }
    {
        if id > MAX_REGION_ID {
            return Err(Fault::RegionId);
        }
        if first >= self.guest {
            return Err(Fault::BadPage);
        }
        self.chain = Some(Reading {
            id,
            count: 0,
            wants: Some(first),
        });
        Ok(())
    }

    /// Reads the table page that is wanted next. A refusal ends the chain.
    pub fn chain_page(&mut self, page: &Page) -> Result<ChainNext, Fault>
        requires { IsChainBegun self.old.chain }
        ensures { ReadsChain self.old page.now result self.new }
    {
        let reading = self.chain.unwrap();
        match read_table(page.bytes(), self.guest, &mut self.runs, reading) {
            Ok(read) => {
                self.chain = Some(read);
                Ok(next_of(read))
            }
            Err(fault) => {
                self.chain = None;
                Err(fault)
            }
        }
    }

    /// Gives the region the list of the chain that was read. Either way no chain is under way any more.
    pub fn chain_finish(&mut self) -> Result<(), Fault>
        requires { IsChainWhole self.old.chain }
        ensures { FinishesChain self.old result self.new }
    {
        let reading = self.chain.unwrap();
        self.chain = None;
        let slot = reading.id as usize;
        let runs = &self.runs[..reading.count];
        let pages = listed_count(runs);
        let rest = self.lists.total() - self.lists.list(slot).len();
        if rest + pages > MAX_PLACES as usize {
            return Err(Fault::PlaceLimit);
        }
        self.lists.replace(slot, pages, None);
        put_runs(&mut self.lists, slot, runs);
        self.defined[slot] = true;
        Ok(())
    }
}

fn locate_in(places: &[Option<PageKey>], byte: u64) -> Result<(PageKey, u16), Fault>
    ensures fault { result_err result ≡ first_standing (tests_of_byte places.now byte) }
    ensures located { IfOk result (λ at. byte_location places.now byte ≡ Some at) }
{
    if byte / PAGE_SIZE as u64 >= places.len() as u64 {
        return Err(Fault::BeyondRegion);
    }
    match places[(byte / PAGE_SIZE as u64) as usize] {
        None => Err(Fault::Unmapped),
        Some(key) => Ok((key, (byte % PAGE_SIZE as u64) as u16)),
    }
}
