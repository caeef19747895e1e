// Work orders.
ghost use Rattle.std.specs.Prelude.{◌≡◌, false};
ghost use Rattle.site.specs.Orders.{order_for};

// A work order for one cabinet, which a site hands out when the cabinet is swapped, or its open mark is resumed. It is spent by a
// refill, or deferred; there is no other way to let it go, since each that is handed out is unspent.
pub struct Order {
    cabinet: usize,
    // a flag: a type without Drop is refused where one is let go, before any proof, and so no edit could show that an order is not
    unspent: bool,
}

impl Order {
    pub(crate) fn for_cabinet(cabinet: usize) -> Order
        ensures { result ≡ order_for cabinet }
    {
        Order {
            cabinet,
            unspent: true,
        }
    }

    pub(crate) fn spend(self) -> usize
        ensures { result ≡ self.cabinet }
    {
        let Order {
            cabinet,
            unspent: _,
        } = self;
        cabinet
    }
}

// That an unspent order is let go has no proof.
impl Drop for Order {
    fn drop(self)
        requires { self.unspent ≡ false }
    {
        let Order {
            cabinet: _,
            unspent: _,
        } = self;
    }
}

// What a refill did: the set of files written, and the set of current files for which the cabinet does not stand afterwards.
#[derive(Clone, Copy, PartialEq, Eq, Debug)]
pub struct Refilled {
    pub written: u16,
    pub left: u16,
}
