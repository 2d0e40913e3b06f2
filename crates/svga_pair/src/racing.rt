//! A script, done act by act on a driver whose device is stepped meanwhile.
ghost use Rattle.std.specs.List.{flat_map};
ghost use Rattle.std.specs.Prelude.{◌≡◌, List};
ghost use Rattle.svga_driver.specs.Driving.{client_in};
ghost use Rattle.svga_head.specs.PlugStates.{PlugState};
ghost use Rattle.svga_model.specs.Closings.{stores_of};
ghost use Rattle.svga_model.specs.Scripts.{meaning_of};
ghost use Rattle.svga_model.specs.Sentences.{spelling_all};
ghost use Rattle.svga_pair.specs.Going.{IsFresh};
ghost use Rattle.svga_pair.specs.Refusals.{IsTold};
ghost use Rattle.svga_pair.specs.Written.{IsWritten};
ghost use Rattle.svga_text.specs.RaceTexts.{told_text};

use crate::acting::act_until;
use crate::raced::{Raced, Refusal};
use crate::telling::tell;
use crate::waiter::Waiter;
use std::sync::Wait;
use svga_driver::Driver;
use svga_io::Sink;
use svga_script::Script;
use svga_text::Render;

/// Does the acts of a script in order, up to the first that is refused, and writes the numbers of its fences
/// and the pages that it shows. Where an act has to wait for the device the waiter takes a turn, and the act
/// is tried again. Behind the first write fault nothing more is written, and the acts go on.
pub fn race_script<R: Wait, W: Waiter, K: Sink>(
    rt: &R,
    driver: &mut Driver,
    script: &Script,
    waiter: &mut W,
    render: &mut Render,
    sink: &mut K,
) -> Raced
    requires { IsFresh script.now.session driver.old }

    // The client that the driver stands for is as the script's meaning leaves it, with every page.
    ensures client { client_in driver.new ≡ (meaning_of script.now).client }
    ensures refused { IsTold result.refused (meaning_of script.now).refused }
    ensures text { IsWritten K.held K.faults sink.old sink.new
        (flat_map told_text (meaning_of script.now).told) result.write_fault }

    // All words of its commands are sent, and the pages are lent that it has lent.
    ensures sent { driver.new.view.sent ≡ spelling_all (meaning_of script.now).client.commands }
    ensures lent { driver.new.view.lent ≡ (meaning_of script.now).client.lent }
    ensures stores { driver.new.view.next_stores
        ≡ stores_of script.now.session.way (meaning_of script.now).client.commands }

    // The session and its device are those that they were.
    ensures driver { driver.new.table ≡ driver.old.table }
    ensures terms { driver.new.view.terms ≡ driver.old.view.terms }
    ensures layout { driver.new.view.layout ≡ driver.old.view.layout }
    ensures table { W.table waiter.new ≡ W.table waiter.old }
    ensures shows { (first : List PlugState) → W.shows waiter.old first → W.shows waiter.new first }
{
    let mut failed = false;
    for i in 0..script.len() {
        match act_until(rt, driver, waiter, script.act(i)) {
            Ok(told) => failed = tell(driver, render, sink, told, failed),
            Err(refused) => {
                return Raced {
                    refused: Some(Refusal {
                        line: script.line(i),
                        number: refused.number,
                        key: refused.key,
                    }),
                    write_fault: failed,
                };
            }
        }
    }
    Raced {
        refused: None,
        write_fault: failed,
    }
}
