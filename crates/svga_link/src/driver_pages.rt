//! How a page moves between the driver and the table: out and home go its slot, and what lies in it.
ghost use Rattle.std.specs.FinSet as set;
ghost use Rattle.std.specs.Prelude.{◌≡◌, [], Some, false};
ghost use Rattle.svga_cmd.specs.Pages.{IsKey};
ghost use Rattle.svga_link.specs.Lending.{MayTakeBack, lending, taking};
ghost use Rattle.svga_ring.specs.Conditions.{NoSlotOut};
ghost use Rattle.svga_ring.specs.TableSteps.{page_left};

use crate::driver_seat::DriverSeat;
use crate::page_words::look;
use svga_cmd::{Page, PageKey};

/// The page comes to stand at home.
pub(crate) fn lend(seat: &mut DriverSeat, key: PageKey, page: Page)
    requires key { IsKey seat.old.view.terms.limits key }
    requires mine { set.contains seat.old.view.lent key ≡ false }
    requires none_out { NoSlotOut seat.old.view }
    requires none_carried { seat.old.carried ≡ [] }
    ensures { seat.new ≡ record seat.old { view = lending seat.old.view key page } }
{
    look(&page);
    seat.take_slot_out(key);
    drop(seat.exchange(key, Some(page)));
    seat.give_page(key);
}

/// The page that is at home comes to the driver.
pub(crate) fn take(seat: &mut DriverSeat, key: PageKey) -> Option<Page>
    requires may { MayTakeBack seat.old.view key }
    requires none_out { NoSlotOut seat.old.view }
    requires none_carried { seat.old.carried ≡ [] }
    ensures page { result ≡ Some (page_left seat.old.view key) }
    ensures left { seat.new ≡ record seat.old { view = taking seat.old.view key } }
{
    seat.take_page(key);
    let page = seat.exchange(key, None);
    seat.bring_slot_home(key);
    page
}
