//! A call that is made again where memory ran out.

/// Makes a call, and makes it again where memory ran out.
macro_rules! again {
    ($out:expr, $call:expr) => {
        $call;
        if $out.ran_out() {
            $call;
        }
    };
}

pub(crate) use again;
