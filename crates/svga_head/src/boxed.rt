//! A boxed head is a head, whatever its type.
ghost use Rattle.svga_head.specs.HeadStates.{HeadState};

use crate::fault::HeadFault;
use crate::head::Head;

/// A call goes to the head in the box.
impl Head for Box<dyn Head + Send> {
    ghost state = { λ b. (Head-box b).state b.value };

    fn show(&mut self, id: u32, width: u32, height: u32) -> Result<(), HeadFault> {
        (**self).show(id, width, height)
    }

    fn hide(&mut self, id: u32) -> Result<(), HeadFault> {
        (**self).hide(id)
    }

    fn paint(&mut self, id: u32, x: u32, y: u32, colours: &[u32]) -> Result<(), HeadFault> {
        (**self).paint(id, x, y, colours)
    }

    fn picture_row(&self, id: u32, y: u32) -> Option<&[u32]> {
        (**self).picture_row(id, y)
    }
}
