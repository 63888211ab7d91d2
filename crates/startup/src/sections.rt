// The sections of document 01's list of stores and waits, in its order, each as `freeze` of rcc.rs has it.
// Room for its polls depends on its own waits, so it stands in each contract and not in `Run`.
ghost use Rattle.std.specs.Prelude.{◌<◌};
ghost use Rattle.order.specs.Places as places;
ghost use Rattle.startup.specs.Machine.{Room};
ghost use Rattle.startup.specs.Run.{Goes};
ghost use Rattle.order.specs.Order.{hsi_ops, crystal_ops, hse_ops, pll_on, over_ops, pll_ops, lse_ops, lsi_ops, sai_ops, choice_ops, i2s_ops, last_ops, ops_of};

use super::machine::Run;
use clocks::InternalRCCConfig;
use kinds::{CFGR, HSEClock, I2s, LSEClockMode, Mco, PLL48CLK, Pll, Sai};
use order::registers::{HSEBYP, HSEON, LSEBYP, LSEON};
use order::{Awaited, registers};

impl Run<'_> {
    // HSION; W; SW = HSI.
    pub(crate) fn hsi_part(&mut self)
        requires { Room hsi_ops self.old.machine }
        ensures { Goes self.old hsi_ops self.new }
    {
        self.set(registers::HSION, 1);
        self.wait(Awaited::Hsi);
        self.set(registers::SW, 0);
    }

    // An oscillator's bypass bit and its ON bit, at their places; then its wait.
    fn crystal(&mut self, byp: usize, on: usize, flag: Awaited, bypass: u32)
        requires room { Room (crystal_ops byp on flag bypass) self.old.machine }
        requires byp { byp < places.PLACES }
        requires on { on < places.PLACES }
        ensures { Goes self.old (crystal_ops byp on flag bypass) self.new }
    {
        self.set(byp, bypass);
        self.set(on, 1);
        self.wait(flag);
    }

    // HSE given: HSEBYP; HSEON; W.
    pub(crate) fn hse_part(&mut self, hse: Option<HSEClock>)
        requires { Room (hse_ops hse) self.old.machine }
        ensures { Goes self.old (hse_ops hse) self.new }
    {
        match hse {
            None => {}
            Some(HSEClock::Oscillator(_)) => self.crystal(HSEBYP, HSEON, Awaited::Hse, 0),
            Some(HSEClock::Bypass(_)) => self.crystal(HSEBYP, HSEON, Awaited::Hse, 1),
        }
    }

    // PLLON = 0; the five PLL fields; PWREN; VOS; PLLON = 1; W. It takes HSE and the PLL, which it stores, and no more.
    fn pll_on(&mut self, hse: Option<HSEClock>, pll: Pll, vos: u32)
        requires { Room (pll_on hse pll vos) self.old.machine }
        ensures { Goes self.old (pll_on hse pll vos) self.new }
    {
        self.set(registers::PLLON, 0);
        self.store(registers::pllcfgr(self.machine.file, hse, pll));
        self.set(registers::PWREN, 1);
        self.set(registers::VOS, vos);
        self.set(registers::PLLON, 1);
        self.wait(Awaited::Pll);
    }

    // With over-drive: ODEN; W; ODSWEN; W.
    fn over_drive(&mut self, overdrive: bool)
        requires { Room (over_ops overdrive) self.old.machine }
        ensures { Goes self.old (over_ops overdrive) self.new }
    {
        if overdrive {
            self.set(registers::ODEN, 1);
            self.wait(Awaited::Oden);
            self.set(registers::ODSWEN, 1);
            self.wait(Awaited::Odswen);
        }
    }

    // The PLL, voltage and over-drive.
    pub(crate) fn pll_part(&mut self, hse: Option<HSEClock>, pll: Pll, config: InternalRCCConfig)
        requires { Room (pll_ops hse pll config) self.old.machine }
        ensures { Goes self.old (pll_ops hse pll config) self.new }
    {
        if registers::is_stored(pll) {
            self.pll_on(hse, pll, config.vos_scale as u32);
            self.over_drive(config.overdrive);
        }
    }

    // LSE: LSEBYP; LSEON; W.
    pub(crate) fn lse_part(&mut self, lse: Option<LSEClockMode>)
        requires { Room (lse_ops lse) self.old.machine }
        ensures { Goes self.old (lse_ops lse) self.new }
    {
        match lse {
            None => {}
            Some(LSEClockMode::Oscillator) => self.crystal(LSEBYP, LSEON, Awaited::Lse, 0),
            Some(LSEClockMode::Bypass) => self.crystal(LSEBYP, LSEON, Awaited::Lse, 1),
        }
    }

    // LSI: LSION; W.
    pub(crate) fn lsi_part(&mut self, lsi: bool)
        requires { Room (lsi_ops lsi) self.old.machine }
        ensures { Goes self.old (lsi_ops lsi) self.new }
    {
        if lsi {
            self.set(registers::LSION, 1);
            self.wait(Awaited::Lsi);
        }
    }

    // PLLSAI: its three fields; PLLSAION. Nothing waits for it.
    pub(crate) fn sai_part(&mut self, sai: Sai)
        ensures { Goes self.old (sai_ops sai) self.new }
    {
        if sai.use_pllsai {
            self.store(registers::pllsaicfgr(self.machine.file, sai));
            self.set(registers::PLLSAION, 1);
        }
    }

    // 48 MHz choice: CK48MSEL, 1 for PLLSAI, by the cases that its list has.
    pub(crate) fn choice_part(&mut self, choice: Option<PLL48CLK>)
        ensures { Goes self.old (choice_ops choice) self.new }
    {
        match choice {
            None => {}
            Some(PLL48CLK::Pllq) => self.set(registers::CK48MSEL, 0),
            Some(PLL48CLK::Pllsai) => self.set(registers::CK48MSEL, 1),
        }
    }

    // PLLI2S: its three fields; PLLI2SON. Nothing waits for it.
    pub(crate) fn i2s_part(&mut self, i2s: I2s)
        ensures { Goes self.old (i2s_ops i2s) self.new }
    {
        if i2s.use_plli2s {
            self.store(registers::plli2scfgr(self.machine.file, i2s));
            self.set(registers::PLLI2SON, 1);
        }
    }

    // The four MCO fields; LATENCY; PPRE1, PPRE2, HPRE; SW; W.
    pub(crate) fn last_part(&mut self, mco: Mco, config: InternalRCCConfig, sw: u32)
        requires { Room (last_ops mco config sw) self.old.machine }
        ensures { Goes self.old (last_ops mco config sw) self.new }
    {
        self.store(registers::mco(self.machine.file, mco));
        self.store(registers::acr(self.machine.file, config));
        self.store(registers::prescalers(self.machine.file, config));
        self.set(registers::SW, sw);
        self.wait(Awaited::Sw);
    }

    // The whole list of a plan, section by section.
    pub(crate) fn all_parts(&mut self, cfgr: CFGR, config: InternalRCCConfig)
        requires { Room (ops_of cfgr config) self.old.machine }
        ensures { Goes self.old (ops_of cfgr config) self.new }
    {
        let sources = cfgr.sources;
        self.hsi_part();
        self.hse_part(sources.hse);
        self.pll_part(sources.hse, cfgr.pll, config);
        self.lse_part(sources.lse);
        self.lsi_part(sources.lsi);
        self.sai_part(cfgr.sai);
        self.choice_part(cfgr.pll.pll48clk);
        self.i2s_part(cfgr.i2s);
        self.last_part(cfgr.mco, config, registers::sw(sources.hse, cfgr.pll));
    }
}
