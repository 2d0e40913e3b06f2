//! The calls on pages that are with the driver: bytes of one are written or read, or it is lent.
ghost use Rattle.std.specs.Prelude.{◌≡◌, ◌+◌, ◌≤◌, ◌&&◌, nat_le, length, is_some, true, false, IfOk, Some, option_map};
ghost use Rattle.std.specs.Result.{result_err};
ghost use Rattle.svga_client.specs.OwnPages.{writing};
ghost use Rattle.svga_cmd.specs.Pages.{is_key, page_at};
ghost use Rattle.svga_cmd.specs.declared.constants.TheConstants.{PAGE_SIZE};
ghost use Rattle.svga_driver.specs.Answering.{told};
ghost use Rattle.svga_driver.specs.Driving.{client_in};
ghost use Rattle.svga_driver.specs.PageAnswers.{LendAnswers, WriteAnswers};
ghost use Rattle.svga_model.specs.ClientActs.{ShowPage};
ghost use Rattle.svga_model.specs.Clients.{over_written, refusal_of};

use crate::driver::Driver;
use crate::fault::DriverFault;
use crate::lending::Lendings;
use svga_cmd::constants::PAGE_SIZE;
use svga_cmd::{Page, PageKey};
use svga_link::DriverEnd;

impl Driver {
    /// Writes bytes into a page that is with the driver, from byte `offset` on.
    pub fn write_page(&mut self, key: PageKey, offset: u32, bytes: &[u8]) -> Result<(), DriverFault>
        ensures { WriteAnswers self.old key offset bytes.now result self.new }
    {
        let at = offset as usize;
        if !has_bytes(&self.lendings, key, at, bytes.len()) {
            return Err(DriverFault::PageRange(key));
        }
        if !write_in(&mut self.end, key, at, bytes) {
            return Err(DriverFault::PageLent(key));
        }
        Ok(())
    }

    /// A page that is with the driver.
    pub fn read_page(&self, key: PageKey) -> Result<&Page, DriverFault>
        ensures fault { result_err result ≡ option_map told (refusal_of (client_in self.now) (ShowPage key)) }
        ensures page { IfOk result (λ page. page_at (client_in self.now).state.memory key ≡ Some page.now) }
    {
        if !has_bytes(&self.lendings, key, 0, 0) {
            return Err(DriverFault::PageRange(key));
        }
        match self.end.page(key) {
            Some(page) => Ok(page),
            None => Err(DriverFault::PageLent(key)),
        }
    }

    /// Lends a page, which is with the driver: commands may touch it from now on.
    pub fn lend(&mut self, key: PageKey) -> Result<(), DriverFault>
        ensures { LendAnswers self.old key result self.new }
    {
        if !has_bytes(&self.lendings, key, 0, 0) {
            return Err(DriverFault::PageRange(key));
        }
        if self.end.page(key).is_none() {
            return Err(DriverFault::PageLent(key));
        }
        self.end.lend(key);
        self.lendings.lend(key);
        Ok(())
    }
}

// Whether the device has the page, with so many bytes from an offset on.
fn has_bytes(lendings: &Lendings, key: PageKey, at: usize, count: usize) -> bool
    ensures { result ≡ (is_key lendings.now.limits key && nat_le (at + count) PAGE_SIZE) }
{
    lendings.is_key(key) && at <= PAGE_SIZE && count <= PAGE_SIZE - at
}

// Writes bytes into a page, if it is with the end.
fn write_in(end: &mut DriverEnd, key: PageKey, at: usize, bytes: &[u8]) -> bool
    requires { at + length bytes.now ≤ PAGE_SIZE }
    ensures there { result ≡ is_some (page_at end.old.pages key) }
    ensures written { result ≡ true → end.new
        ≡ record end.old { pages = writing end.old.pages key at bytes.now } }
    ensures lent { result ≡ false → end.new ≡ end.old }
{
    match end.page_mut(key) {
        Some(page) => {
            write_over(page.bytes_mut(), at, bytes);
            true
        }
        None => false,
    }
}

// Writes bytes over others from an offset on.
fn write_over(page: &mut [u8], at: usize, bytes: &[u8])
    requires { at + length bytes.now ≤ length page.old }
    ensures { page.new ≡ over_written page.old at bytes.now }
{
    page[at..at + bytes.len()].copy_from_slice(bytes);
}
