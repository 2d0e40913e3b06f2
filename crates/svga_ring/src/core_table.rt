//! What a shared table asks of the steps of its seats. The functions do nothing: their contracts are the
//! laws.
ghost use Rattle.std.specs.Prelude.{◌≡◌, ℕ};
ghost use Rattle.atomic_table.specs.Table.{Allows, Joins, Me, Splits};
ghost use Rattle.svga_cmd.specs.declared.session.Session.{Session};
ghost use Rattle.svga_ring.specs.Conditions.{DeviceMay, DriverMay, JoinedMay, MayJoin};
ghost use Rattle.svga_ring.specs.Core.{Event};
ghost use Rattle.svga_ring.specs.Locations.{Slot};
ghost use Rattle.svga_ring.specs.TableRule.{IsSoundTable, View, as_device, as_driver, joined_view, opening_table, opening_view};
ghost use Rattle.svga_ring.specs.TableSteps.{DeviceBrings, DeviceLearns, DriverBrings, DriverLearns, JoinedLearns, JoinedLooks, device_value, device_word, driver_value, driver_word};
ghost use Rattle.svga_ring.specs.Views.{device, driver, joined, spent};

/// Sound is a rule of a shared table, with the session as its key: the table opens by it, its seat is split,
/// and the driver's seat takes in the device's.
pub fn table_rule()
    ensures opens { (k : Session) → IsSoundTable k (opening_table k) }
    ensures splits { (k : Session) (id : ℕ) → Splits (IsSoundTable k) id (opening_view k)
        (as_driver (opening_view k)) (as_device (opening_view k)) }
    ensures joins { (k : Session) (id other : ℕ) (v w x : View) → v.role ≡ driver → w.role ≡ device
        → x.role ≡ spent → MayJoin w.of_device
        → Joins (IsSoundTable k) id v other w (joined_view v w) x }
{}

/// Each step of a seat is one that the table allows, on the seat's own condition, and tells it of what core
/// it was made.
pub fn steps_are_allowed()
    ensures driver { (k : Session) (slots id : ℕ) (me : Me Slot View) (event : Event) → me.0.role ≡ driver
        → DriverMay event me.0.of_driver → DriverBrings event me.0.of_driver me.1
        → Allows (IsSoundTable k) slots id me (driver_word event me.0.of_driver)
        (driver_value event me.0.of_driver) (DriverLearns k me event) }
    ensures device { (k : Session) (slots id : ℕ) (me : Me Slot View) (event : Event) → me.0.role ≡ device
        → DeviceMay event me.0.of_device → DeviceBrings event me.0.of_device me.1
        → Allows (IsSoundTable k) slots id me (device_word event me.0.of_device)
        (device_value event me.0.of_device) (DeviceLearns k me event) }
    ensures joined { (k : Session) (slots id : ℕ) (me : Me Slot View) (event : Event) → me.0.role ≡ joined
        → JoinedMay event me.0.of_driver
        → Allows (IsSoundTable k) slots id me (driver_word event me.0.of_driver)
        (driver_value event me.0.of_driver) (JoinedLearns k me event) }

    // The joined seat may also look at any word.
    ensures looks { (k : Session) (slots id : ℕ) (me : Me Slot View) (word : ℕ) → me.0.role ≡ joined
        → Allows (IsSoundTable k) slots id me word (λ n. n) (JoinedLooks k me word) }
{}
