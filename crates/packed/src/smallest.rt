//! The choice of a form.

/// Calls a function that is generic over the form of states, its last type parameter, with the smallest form that
/// states of a layout (`&Layout`) have: the fewest packed words that suffice, or the list of their values if more than
/// eight words are needed.
#[macro_export]
macro_rules! in_smallest_form {
    ($layout:expr, $function:ident $(::<$($type:ty),+>)? ($($argument:expr),*)) => {
        if $crate::Bits::<1>::fits($layout) {
            $function::<$($($type,)+)? $crate::Bits<1>>($($argument),*)
        } else if $crate::Bits::<2>::fits($layout) {
            $function::<$($($type,)+)? $crate::Bits<2>>($($argument),*)
        } else if $crate::Bits::<4>::fits($layout) {
            $function::<$($($type,)+)? $crate::Bits<4>>($($argument),*)
        } else if $crate::Bits::<8>::fits($layout) {
            $function::<$($($type,)+)? $crate::Bits<8>>($($argument),*)
        } else {
            $function::<$($($type,)+)? $crate::Plain>($($argument),*)
        }
    };
}
