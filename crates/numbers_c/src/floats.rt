// The float steps under C names, for Rust and C to call: benchmarks and comparisons go through here.
ghost use Rattle.std.specs.Prelude.{◌≡◌};
ghost use Rattle.std.specs.Float.Ieee.{to_signed};
ghost use Rattle.ieee.specs.Pick.{abs_f, min_f, max_f};
ghost use Rattle.ieee.specs.Root.{root_f};
ghost use Rattle.ieee.specs.Threshold.{Threshold};
ghost use Rattle.ieee.specs.Whole.{floor_z, ceil_z, biased};

#[unsafe(no_mangle)]
pub extern "C" fn runcedau_root(x: f64) -> f64
    ensures { result ≡ root_f x }
{
    ieee::root::root(x)
}

#[unsafe(no_mangle)]
pub extern "C" fn runcedau_root_threshold(x: f64) -> f64
    ensures { Threshold x result }
{
    ieee::threshold::root_threshold(x)
}

#[unsafe(no_mangle)]
pub extern "C" fn runcedau_cut_to_i64(x: f64) -> i64
    ensures { result ≡ to_signed 63 x }
{
    ieee::whole::cut_to_i64(x)
}

#[unsafe(no_mangle)]
pub extern "C" fn runcedau_floor_to_i64(x: f64) -> i64
    ensures { result ≡ floor_z x }
{
    ieee::whole::floor_to_i64(x)
}

#[unsafe(no_mangle)]
pub extern "C" fn runcedau_ceil_to_i64(x: f64) -> i64
    ensures { result ≡ ceil_z x }
{
    ieee::whole::ceil_to_i64(x)
}

#[unsafe(no_mangle)]
pub extern "C" fn runcedau_column_of(x: f64) -> u64
    ensures { result ≡ biased (floor_z x) }
{
    ieee::whole::column_of(x)
}

#[unsafe(no_mangle)]
pub extern "C" fn runcedau_column_up(x: f64) -> u64
    ensures { result ≡ biased (ceil_z x) }
{
    ieee::whole::column_up(x)
}

#[unsafe(no_mangle)]
pub extern "C" fn runcedau_abs(x: f64) -> f64
    ensures { result ≡ abs_f x }
{
    ieee::pick::abs(x)
}

#[unsafe(no_mangle)]
pub extern "C" fn runcedau_min(a: f64, b: f64) -> f64
    ensures { result ≡ min_f a b }
{
    ieee::pick::min(a, b)
}

#[unsafe(no_mangle)]
pub extern "C" fn runcedau_max(a: f64, b: f64) -> f64
    ensures { result ≡ max_f a b }
{
    ieee::pick::max(a, b)
}
